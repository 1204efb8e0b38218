//! Laws on the items of bytes.
ghost use Rattle.ur_http.specs.Items.{OneList, StaysDecided};

/// The bytes have one list of items, and what they begin with is not undone by what follows. Does nothing.
pub fn one_list(_bytes: &[u8])
    ensures one { OneList _bytes.now }
    ensures stays { StaysDecided _bytes.now }
{}
