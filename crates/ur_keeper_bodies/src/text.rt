//! The schema from its text.
ghost use Rattle.std.specs.Prelude.{◌≡◌, ◌++◌, ◌∷◌, ℕ, Bool, List, IfOk, OnOk, IfSome, Some, None, option_map};
ghost use Rattle.ur_values.specs.declared.schema.Schema.{Schema as SchemaOf};
ghost use Rattle.ur_values.specs.SchemaText.{schema_text};
ghost use Rattle.ur_keeper_bodies.specs.Lines.{kind_of, column_of, closed, begun, with_column, with_place, with_table, with_sequence, read_name, read_word, read_words, new_line, read_table, read_sequence, is_end, read_parts, read_line, read_lines, no_schema};
ghost use Rattle.ur_values.specs.Named.{place_of, IsNamed};
ghost use Rattle.ur_keeper_bodies.specs.Pieces.{grown, pieces};

use std::alloc::Global;
use ur_base::{List, Memory, Text};
use ur_values::{ColumnKind, Schema, TableShape};

/// The schema that the bytes are the text of, or None where they are the text of no schema. The lines are read, and what
/// they make is written again and compared. A schema whose names are words is found.
pub fn read_schema(alloc: Global, bytes: &[u8]) -> Result<Option<Schema>, Memory>
    ensures text { IfOk result (λ found. IfSome found (λ schema. schema_text schema ≡ bytes.now)) }
    ensures named { IfOk result (λ found. (schema : SchemaOf) → IsNamed schema → bytes.now ≡ schema_text schema → found ≡ Some schema) }
{
    let Some(schema) = guess(alloc, bytes)? else {
        return Ok(None);
    };
    let text = schema.text(alloc)?;
    if text.as_slice() == bytes {
        return Ok(Some(schema));
    }
    Ok(None)
}

/// A schema from the lines of a text.
fn guess(alloc: Global, bytes: &[u8]) -> Result<Option<Schema>, Memory>
    ensures { IfOk result (λ found. found ≡ read_lines no_schema (pieces 10 bytes.now)) }
{
    let mut schema = Schema {
        tables: List::new(alloc),
        sequences: List::new(alloc),
    };
    let lines = split(alloc, bytes, b'\n')?;
    for line in lines.as_slice() {
        let Some(next) = with_line(alloc, schema, line)? else {
            return Ok(None);
        };
        schema = next;
    }
    Ok(Some(schema))
}

/// The schema with what a line says.
fn with_line(alloc: Global, schema: Schema, line: &Text) -> Result<Option<Schema>, Memory>
    ensures { IfOk result (λ found. found ≡ read_line schema line.now) }
{
    let words = split(alloc, line.as_slice(), b' ')?;
    with_parts(alloc, schema, words.as_slice())
}

fn with_parts(alloc: Global, schema: Schema, words: &[Text]) -> Result<Option<Schema>, Memory>
    ensures { IfOk result (λ found. found ≡ read_parts schema words.now) }
{
    let Some((first, rest)) = words.split_first() else {
        return Ok(None);
    };
    if first.as_slice() == b"table".as_slice() {
        return with_table(alloc, schema, rest);
    }
    if first.as_slice() == b"sequence".as_slice() {
        return with_sequence(alloc, schema, rest);
    }
    if is_end(first, rest) {
        return Ok(Some(schema));
    }
    Ok(None)
}

/// Whether this is what stands behind the last line.
fn is_end(first: &Text, rest: &[Text]) -> bool
    ensures { result ≡ is_end first.now rest.now }
{
    if rest.is_empty() {
        return first.is_empty();
    }
    false
}

fn with_table(alloc: Global, mut schema: Schema, words: &[Text]) -> Result<Option<Schema>, Memory>
    ensures { IfOk result (λ found. found ≡ option_map (with_table schema) (read_table words.now)) }
{
    let Some(shape) = table(alloc, words)? else {
        return Ok(None);
    };
    schema.tables.push(shape)?;
    Ok(Some(schema))
}

fn with_sequence(
    alloc: Global,
    mut schema: Schema,
    words: &[Text],
) -> Result<Option<Schema>, Memory>
    ensures { IfOk result (λ found. found ≡ option_map (with_sequence schema) (read_sequence words.now)) }
{
    let [name] = words else {
        return Ok(None);
    };
    let name = List::from_slice(alloc, name.as_slice())?;
    schema.sequences.push(name)?;
    Ok(Some(schema))
}

/// A table from the words of its line.
fn table(alloc: Global, words: &[Text]) -> Result<Option<TableShape>, Memory>
    ensures { IfOk result (λ found. found ≡ read_table words.now) }
{
    let Some((name, rest)) = words.split_first() else {
        return Ok(None);
    };
    let mut line = Line::new(alloc, name)?;
    for word in rest {
        let Some(next) = line.with_word(alloc, word)? else {
            return Ok(None);
        };
        line = next;
    }
    let shape = line.close()?;
    Ok(Some(shape))
}

/// A table's line that is read: its shape so far, and the key under way.
#[derive(Drop)]
struct Line {
    shape: TableShape,
    key: Option<List<u32>>,
}

impl Line {
    fn new(alloc: Global, name: &Text) -> Result<Line, Memory>
        ensures { IfOk result (λ line. line ≡ new_line name.now) }
    {
        let name = List::from_slice(alloc, name.as_slice())?;
        let shape = TableShape {
            name,
            columns: List::new(alloc),
            keys: List::new(alloc),
            primary: false,
        };
        Ok(Line { shape, key: None })
    }

    /// The shape with the key under way.
    fn close(self) -> Result<TableShape, Memory>
        ensures { IfOk result (λ shape. shape ≡ closed self.shape self.key) }
    {
        let Line { mut shape, key } = self;
        match key {
            None => Ok(shape),
            Some(key) => {
                shape.keys.push(key)?;
                Ok(shape)
            }
        }
    }

    /// Begins a key.
    fn begin(self, alloc: Global, primary: bool) -> Result<Line, Memory>
        ensures { IfOk result (λ line. line ≡ begun primary self) }
    {
        let mut shape = self.close()?;
        shape.primary = primary;
        Ok(Line {
            shape,
            key: Some(List::new(alloc)),
        })
    }

    /// One more word: a column, the beginning of a key, or one more column of the key.
    fn with_word(self, alloc: Global, word: &Text) -> Result<Option<Line>, Memory>
        ensures { IfOk result (λ line. line ≡ read_word self word.now) }
    {
        if word.as_slice() == b"primary".as_slice() {
            let line = self.begin(alloc, true)?;
            return Ok(Some(line));
        }
        if word.as_slice() == b"unique".as_slice() {
            let primary = self.shape.primary;
            let line = self.begin(alloc, primary)?;
            return Ok(Some(line));
        }
        let Line { shape, key } = self;
        match key {
            None => with_column(alloc, shape, word),
            Some(key) => with_place(shape, key, word),
        }
    }
}

fn with_column(alloc: Global, mut shape: TableShape, word: &Text) -> Result<Option<Line>, Memory>
    ensures { IfOk result (λ line. line ≡ option_map (with_column shape) (column_of word.now)) }
{
    let Some(column) = column(alloc, word)? else {
        return Ok(None);
    };
    shape.columns.push(column)?;
    Ok(Some(Line { shape, key: None }))
}

fn with_place(shape: TableShape, mut key: List<u32>, word: &Text) -> Result<Option<Line>, Memory>
    ensures { IfOk result (λ line. line ≡ option_map (with_place shape key) (place_of shape.columns word.now)) }
{
    let Some(place) = place_of(shape.columns.as_slice(), word)? else {
        return Ok(None);
    };
    key.push(place)?;
    Ok(Some(Line {
        shape,
        key: Some(key),
    }))
}

/// The first column of this name. More columns than `u32` has numbers take memory that is not had.
fn place_of(columns: &[(Text, ColumnKind)], name: &Text) -> Result<Option<u32>, Memory>
    ensures { IfOk result (λ place. place ≡ place_of columns.now name.now) }
{
    if columns.len() > u32::MAX as usize {
        return Err(Memory);
    }
    for place in 0..columns.len() {
        if columns[place].0 == *name {
            return Ok(Some(place as u32));
        }
    }
    Ok(None)
}

/// A column from its word.
fn column(alloc: Global, word: &Text) -> Result<Option<(Text, ColumnKind)>, Memory>
    ensures { IfOk result (λ column. column ≡ column_of word.now) }
{
    let parts = split(alloc, word.as_slice(), b':')?;
    let [name, kind] = parts.as_slice() else {
        return Ok(None);
    };
    let Some(kind) = kind_of(kind) else {
        return Ok(None);
    };
    let name = List::from_slice(alloc, name.as_slice())?;
    Ok(Some((name, kind)))
}

fn kind_of(word: &Text) -> Option<ColumnKind>
    ensures { result ≡ kind_of word.now }
{
    if word.as_slice() == b"int".as_slice() {
        return Some(ColumnKind::Int);
    }
    if word.as_slice() == b"string".as_slice() {
        return Some(ColumnKind::Str);
    }
    if word.as_slice() == b"bool".as_slice() {
        return Some(ColumnKind::Bool);
    }
    if word.as_slice() == b"int?".as_slice() {
        return Some(ColumnKind::OptInt);
    }
    if word.as_slice() == b"string?".as_slice() {
        return Some(ColumnKind::OptStr);
    }
    if word.as_slice() == b"bool?".as_slice() {
        return Some(ColumnKind::OptBool);
    }
    None
}
/// The pieces of a text between marks.
fn split(alloc: Global, bytes: &[u8], mark: u8) -> Result<List<Text>, Memory>
    ensures { IfOk result (λ found. found ≡ pieces mark bytes.now) }
{
    let mut done: List<Text> = List::new(alloc);
    let mut piece: Text = List::new(alloc);
    for byte in bytes {
        take_byte(alloc, &mut done, &mut piece, *byte, mark)?;
    }
    done.push(piece)?;
    Ok(done)
}

/// Takes one byte of a text: a mark ends the piece under way.
fn take_byte(
    alloc: Global,
    done: &mut List<Text>,
    piece: &mut Text,
    byte: u8,
    mark: u8,
) -> Result<(), Memory>
    ensures { OnOk result ((rest : List ℕ) → done.new ++ grown piece.new (pieces mark rest) ≡ done.old ++ grown piece.old (pieces mark (byte ∷ rest))) }
{
    if byte == mark {
        let whole = std::mem::replace(piece, List::new(alloc));
        done.push(whole)?;
        return Ok(());
    }
    piece.push(byte)?;
    Ok(())
}
