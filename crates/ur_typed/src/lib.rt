//! When a written project has a typed source, put together of its declarations, its bodies and its routes; and the
//! typing of written expressions by one function.
#![tactic(auto)]
