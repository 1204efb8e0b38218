/// Where a constructor stands.
#[derive(Clone, Copy, Debug)]
pub enum ConPlace {
    /// Anywhere but at these places.
    Plain,
    /// Before the keys of a table, whose words are no modules there.
    BeforeKeys,
    /// Beside `~`, where a field of a row may stand without its constructor.
    Beside,
}
