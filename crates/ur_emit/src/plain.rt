//! Whether the end of a run looks plain: whether it is worth a try to write it. No promise stands on it.
use ur_base::List;
use ur_machine_frames::{Frame, standing_at};
use ur_terms::{Branch, Function, Op, Term};

/// The levels of a term that looks plain: what writes it goes down as many.
const MOST_LEVELS: u32 = 256;

/// Whether a term looks plain.
pub fn looks_plain(term: &Term) -> bool {
    is_plain(term, MOST_LEVELS)
}

/// Whether a term looks plain that has at most so many levels.
#[cycle(plain)]
fn is_plain(term: &Term, levels: u32) -> bool {
    if levels == 0 {
        return false;
    }
    let under = levels - 1;
    match term {
        Term::Variable(_) => true,
        Term::Int(_) => true,
        Term::Str(_) => true,
        Term::Bool(_) => true,
        Term::Make(op, args) => is_plain_op(op) && all_plain(args.as_slice(), under),
        Term::Call(_, _) => false,
        Term::Let(args, body) => {
            all_plain(args.as_slice(), under) && is_plain(body.get(), under)
        }
        Term::If(condition, yes, no) => {
            is_plain(condition.get(), under)
                && is_plain(yes.get(), under)
                && is_plain(no.get(), under)
        }
        Term::Case(subject, branches) => {
            is_plain(subject.get(), under) && branches_plain(branches.as_slice(), under)
        }
        Term::Each(rows, body) => is_plain(rows.get(), under) && is_plain(body.get(), under),
    }
}

#[cycle(plain)]
fn all_plain(terms: &[Term], levels: u32) -> bool {
    for term in terms {
        if !is_plain(term, levels) {
            return false;
        }
    }
    true
}

#[cycle(plain)]
fn branches_plain(branches: &[Branch], levels: u32) -> bool {
    for branch in branches {
        if !is_plain(&branch.body, levels) {
            return false;
        }
    }
    true
}

fn is_plain_op(op: &Op) -> bool {
    match op {
        Op::Project(_) => true,
        Op::Markup(_) => true,
        Op::Text(_) => true,
        Op::Shown => true,
        Op::Element(_) => true,
        Op::Link { .. } => true,
        Op::Input { .. } => true,
        Op::Submit { .. } => true,
        Op::Record(names) => names.is_empty(),
        _ => false,
    }
}

/// Whether what the frames do with a value looks plain.
pub fn ends_plain(frames: &[Frame], functions: &List<Function>) -> bool {
    let mut left = frames;
    while let Some((frame, under)) = left.split_last() {
        if !passes(frame, under, functions) {
            return false;
        }
        left = under;
    }
    true
}

fn passes(frame: &Frame, under: &[Frame], functions: &List<Function>) -> bool {
    match frame {
        Frame::Body { .. } => true,
        Frame::LetBody(_) => true,
        Frame::Side(_) => true,
        Frame::Branch { .. } => true,
        Frame::Rows => match standing_at(functions, under) {
            Some(Term::Each(_, body)) => looks_plain(body.get()),
            _ => false,
        },
        Frame::Args(done) => match standing_at(functions, under) {
            Some(Term::Let(args, body)) => {
                done.is_empty() && args.len() == 1 && looks_plain(body.get())
            }
            _ => false,
        },
        _ => false,
    }
}
