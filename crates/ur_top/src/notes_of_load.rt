//! The notes application.
ghost use Rattle.std.specs.Prelude.{◌≡◌, [], ◌∷◌, ◌++◌, IfOk, OnOk};
ghost use Rattle.ur_top.specs.Notes as notes;

use std::alloc::Global;
use ur_base::{Bytes, List, Memory, Text};

/// Its files.
pub(crate) fn notes_files(alloc: Global) -> Result<List<(Text, Bytes)>, Memory>
    ensures { IfOk result (λ files. files ≡ notes.notes_list) }
{
    let mut files = List::new(alloc);
    add(alloc, &mut files, b"notes.urp", project())?;
    add(alloc, &mut files, b"main.ur", module())?;
    add(alloc, &mut files, b"main.urs", signature())?;
    Ok(files)
}

fn add(
    alloc: Global,
    files: &mut List<(Text, Bytes)>,
    name: &[u8],
    text: &[u8],
) -> Result<(), Memory>
    ensures { OnOk result (files.new ≡ files.old ++ (name.now, text.now) ∷ []) }
{
    let name = List::from_slice(alloc, name)?;
    let text = List::from_slice(alloc, text)?;
    files.push((name, text))?;
    Ok(())
}

fn project() -> &'static [u8]
    ensures { result.now ≡ notes.notes_project }
{
    b"database dbname=notes\n\nmain\n"
}

fn signature() -> &'static [u8]
    ensures { result.now ≡ notes.notes_signature }
{
    b"val list : string -> transaction page\n"
}

fn module() -> &'static [u8]
    ensures { result.now ≡ notes.notes_module }
{
    b"sequence ids\ntable note : {Id : int, Owner : string, Body : string} PRIMARY KEY Id\n\nfun list (who : string) : transaction page =\n  rows <- queryX (SELECT note.Id, note.Body FROM note\n                  WHERE note.Owner = {[who]} ORDER BY note.Id)\n    (fn r => <xml><p>{[r.Note.Body]}</p><form><submit action={drop r.Note.Id} value=\"Drop\"/></form><form><textbox{#To}/><submit action={move r.Note.Id} value=\"Move\"/></form></xml>);\n  return <xml><head><title>Notes</title></head><body><h1>{[who]}</h1>{rows}<form><textbox{#Body}/><submit action={add who} value=\"Add\"/></form></body></xml>\nand add (who : string) (r : {Body : string}) : transaction page =\n  n <- nextval ids;\n  dml (INSERT INTO note (Id, Owner, Body) VALUES ({[n]}, {[who]}, {[r.Body]}));\n  list who\nand drop (id : int) (u : unit) : transaction page =\n  dml (DELETE FROM note WHERE Id = {[id]});\n  return <xml><body><p>done</p></body></xml>\nand move (id : int) (r : {To : string}) : transaction page =\n  dml (UPDATE note SET Owner = {[r.To]} WHERE Id = {[id]});\n  return <xml><body><p>done</p></body></xml>\n"
}
