//! Connections to a port of this machine, one after the other, in the order in which they begin to speak.
ghost use Rattle.std.specs.Prelude.{◌≡◌, ◌≤◌, ◌<◌, true, false, None, IfOk, IfSome, IsErr, OnErr, OnOk, length};
ghost use Rattle.ur_base.specs.Counts.{next_count};

use crate::turn::{Turn, left};
use crate::waiting::{Seen, Waiting, look};
use std::io::{self, ErrorKind, Read, Write};
use std::marker::Model;
use std::net::{Ipv4Addr, Net, OpenListener, SocketAddr, TcpListener};
use std::time::{Clock, Instant};
use ur_io::{Failed, Wire};

/// How long a read waits behind its first look, in milliseconds: the rest of a second.
const REST: u64 = 980;

/// How often a read looks at most within that time.
const LOOKS: u32 = 1_000;

/// The connections to a port of 127.0.0.1. Tells nothing of content. They become current in the order in which it is seen that they
/// have something to say: bytes, or their end. Silent ones wait, at most 64, and the oldest goes where there are more.
///
/// A call on a connection that gives or takes nothing for one second fails. So does a read where another connection has something to
/// say, and this one has said nothing since its last answer for a fiftieth of a second, or at all where it was current for a
/// second; or its request has been coming for two seconds, and little came last.
#[derive(Drop)]
pub struct TcpWire<R: Net> {
    rt: R,
    port: u16,
    listener: Option<R::Listener>,
    waiting: Waiting<R::Stream>,
    current: Option<R::Stream>,
    turn: Turn,
    faults: u64,
}

impl<R: Net> Model for TcpWire<R> {
    ghost use Rattle.std.specs.Prelude.{is_some};
    ghost use Rattle.ur_io_tcp.specs.Sockets.{Listening};

    ghost Value = { Listening };

    ghost view = { λ w. record { listens = is_some w.listener; is_current = is_some w.current; faults = w.faults } };
}

impl<R: Net + Clock + Drop> TcpWire<R> {
    /// Nothing is listened on yet.
    pub fn new(rt: R, port: u16) -> TcpWire<R>
        ensures { result ≡ record { listens = false; is_current = false; faults = 0 } }
    {
        let turn = Turn::new(&rt);
        TcpWire {
            rt,
            port,
            listener: None,
            waiting: Waiting::new(),
            current: None,
            turn,
            faults: 0,
        }
    }

    /// Listens on the port, from the first call that succeeds on.
    pub fn listen(&mut self) -> Result<(), Failed>
        ensures ok { OnOk result (self.new ≡ record self.old { listens = true }) }
        ensures err { OnErr result (self.new ≡ record self.old { faults = next_count self.old.faults }) }
        ensures later { self.old.faults ≤ self.new.faults }
    {
        if self.listener.is_some() {
            return Ok(());
        }
        match listener_at(&self.rt, self.port) {
            Ok(listener) => {
                self.listener = Some(listener);
                Ok(())
            }
            Err(_) => self.fails(),
        }
    }

    /// Looks for what has something to say.
    fn look(&mut self, millis: i32) -> Seen
        ensures { self.new ≡ self.old }
    {
        match &self.listener {
            Some(listener) => look(listener, self.current.as_ref(), &mut self.waiting, millis),
            None => Seen::Failed,
        }
    }

    /// Waits for the next connection that has something to say. Where a look fails, the oldest silent one is let go: descriptors may
    /// be wanting.
    fn first_to_speak(&mut self) -> Option<R::Stream>
        ensures { self.new ≡ self.old }
    {
        for _look in 0..u64::MAX {
            let first = self.waiting.take();
            if first.is_some() {
                return first;
            }
            if self.look(-1) == Seen::Failed && !self.waiting.let_go() {
                return None;
            }
        }
        None
    }

    /// The current connection has nothing to say now, and another one has. A new one is looked at a second time.
    fn is_waited_for(&mut self) -> bool
        ensures { self.new ≡ self.old }
    {
        let mut seen = self.look(0);
        if seen == Seen::Other {
            seen = self.look(0);
        }
        seen != Seen::Current && self.waiting.speaks()
    }

    /// What comes on the current connection within a fiftieth of a second, or None where nothing does.
    fn take(&mut self, buf: &mut [u8]) -> io::Result<Option<usize>>
        requires current { self.old.is_current ≡ true }
        ensures same { self.new ≡ self.old }
        ensures buffer { length buf.new ≡ length buf.old }
        ensures within { IfOk result (λ o. IfSome o (λ n. n ≤ length buf.old)) }
    {
        match &mut self.current {
            Some(stream) => {
                let came = read_now(stream, buf)?;
                if let Some(count) = came {
                    self.turn.came(&self.rt, count);
                }
                Ok(came)
            }
            None => unreachable!(),
        }
    }

    /// Waits for the rest of a second until the current connection has something to say. False where it does not, or another one has
    /// and this one gives way.
    fn speaks_in_time(&mut self) -> bool
        ensures { self.new ≡ self.old }
    {
        let began = Instant::now(&self.rt).ok();
        for _look in 0..LOOKS {
            if self.waiting.speaks() && self.turn.gives_way(&self.rt) {
                return false;
            }
            let millis = left(&self.rt, began, REST);
            match self.look(millis) {
                Seen::Current => return true,
                Seen::Other => {}
                Seen::Nothing | Seen::Failed => return false,
            }
        }
        false
    }

    /// The current connection had its time, and another one has something to say.
    fn gives_way_at_once(&mut self) -> bool
        ensures { self.new ≡ self.old }
    {
        if self.turn.is_over(&self.rt) {
            return self.is_waited_for();
        }
        false
    }

    /// What comes on the current connection; None where nothing does for a second, or it fails, or gives way.
    fn hear(&mut self, buf: &mut [u8]) -> Option<usize>
        requires current { self.old.is_current ≡ true }
        ensures same { self.new ≡ self.old }
        ensures within { IfSome result (λ n. n ≤ length buf.old) }
    {
        if self.gives_way_at_once() {
            return None;
        }
        match self.take(buf) {
            Ok(Some(count)) => Some(count),
            Ok(None) => self.hear_later(buf),
            Err(_) => None,
        }
    }

    /// The same where nothing came at once.
    fn hear_later(&mut self, buf: &mut [u8]) -> Option<usize>
        requires current { self.old.is_current ≡ true }
        ensures same { self.new ≡ self.old }
        ensures within { IfSome result (λ n. n ≤ length buf.old) }
    {
        if !self.speaks_in_time() {
            return None;
        }
        match self.take(buf) {
            Ok(came) => came,
            Err(_) => None,
        }
    }

    /// Counts a fault.
    fn fails<T>(&mut self) -> Result<T, Failed>
        ensures err { IsErr result }
        ensures counted { self.new ≡ record self.old { faults = next_count self.old.faults } }
        ensures later { self.old.faults ≤ self.new.faults }
    {
        self.faults = self.faults.saturating_add(1);
        Err(Failed)
    }
}

impl<R: Net + Clock + Drop> Wire for TcpWire<R> {
    ghost told = { λ _. None };

    ghost is_current = { λ w. w.is_current };

    ghost faults = { λ w. w.faults };

    /// Waits for a connection that has something to say. There is always one more, or an error.
    fn next(&mut self) -> Result<bool, Failed>
        ensures result { IfOk result (λ b. b ≡ true) }
        ensures ok { OnOk result (self.new ≡ record self.old { listens = true; is_current = true }) }
        ensures err { OnErr result ((self.new.is_current ≡ false) × (self.new.faults ≡ next_count self.old.faults)) }
        ensures later { self.old.faults ≤ self.new.faults }
    {
        self.current = None;
        self.listen()?;
        match self.first_to_speak() {
            Some(stream) => {
                self.current = Some(stream);
                self.turn = Turn::new(&self.rt);
                Ok(true)
            }
            None => self.fails(),
        }
    }

    fn read(&mut self, buf: &mut [u8]) -> Result<usize, Failed>
        requires current { self.old.is_current ≡ true }
        requires room { 0 < length buf.old }
        ensures within { IfOk result (λ n. n ≤ length buf.old) }
        ensures same { IfOk result (λ _. self.new ≡ self.old) }
        ensures err { OnErr result (self.new ≡ record self.old { faults = next_count self.old.faults }) }
        ensures later { self.old.faults ≤ self.new.faults }
    {
        match self.hear(buf) {
            Some(count) => Ok(count),
            None => self.fails(),
        }
    }

    fn write(&mut self, piece: &[u8]) -> Result<usize, Failed>
        requires current { self.old.is_current ≡ true }
        ensures within { IfOk result (λ n. n ≤ length piece.now) }
        ensures some { IfOk result (λ n. 0 < length piece.now → 0 < n) }
        ensures same { IfOk result (λ _. self.new ≡ self.old) }
        ensures err { OnErr result (self.new ≡ record self.old { faults = next_count self.old.faults }) }
        ensures later { self.old.faults ≤ self.new.faults }
    {
        self.turn.answered();
        match &mut self.current {
            Some(stream) => write_some(stream, piece, &mut self.faults),
            None => unreachable!(),
        }
    }

    /// The socket is closed as it is let go.
    fn shut(&mut self)
        requires current { self.old.is_current ≡ true }
        ensures { self.new ≡ record self.old { is_current = false } }
    {
        self.current = None;
    }
}

/// Listens on a port of 127.0.0.1. What comes is accepted without waiting.
fn listener_at<R: Net>(rt: &R, port: u16) -> io::Result<R::Listener> {
    let listener = TcpListener::bind(rt, SocketAddr::from((Ipv4Addr::LOCALHOST, port)))?;
    listener.set_nonblocking(true)?;
    Ok(listener)
}

/// Reads some bytes to the front of the buffer, or None where none came in time.
fn read_now<S: Read>(from: &mut S, buf: &mut [u8]) -> io::Result<Option<usize>>
    ensures within { IfOk result (λ o. IfSome o (λ n. n ≤ length buf.old)) }
    ensures buffer { length buf.new ≡ length buf.old }
{
    match from.read(buf) {
        Ok(count) => Ok(Some(count)),
        Err(error) => {
            if error.kind() == ErrorKind::WouldBlock {
                Ok(None)
            } else {
                Err(error)
            }
        }
    }
}

/// Writes some bytes of the piece's front. An error is counted, and so is that nothing was taken of a piece that is not
/// empty.
fn write_some<S: Write>(to: &mut S, piece: &[u8], faults: &mut u64) -> Result<usize, Failed>
    ensures within { IfOk result (λ n. n ≤ length piece.now) }
    ensures some { IfOk result (λ n. 0 < length piece.now → 0 < n) }
    ensures ok { OnOk result (faults.new ≡ faults.old) }
    ensures err { OnErr result (faults.new ≡ next_count faults.old) }
    ensures later { faults.old ≤ faults.new }
{
    match to.write(piece) {
        Ok(count) if count > 0 || piece.is_empty() => Ok(count),
        _ => {
            *faults = faults.saturating_add(1);
            Err(Failed)
        }
    }
}

#[cfg(test)]
impl<R: Net + Clock + Drop> TcpWire<R> {
    /// Where it listens.
    pub(crate) fn address(&self) -> io::Result<SocketAddr> {
        match &self.listener {
            Some(listener) => listener.local_addr(),
            None => Err(io::Error::from(io::ErrorKind::NotConnected)),
        }
    }
}
