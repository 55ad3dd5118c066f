// What a run looks up and does not change.
use pivots::KEY_TABLE_WORDS;
use rules::running::RunTables;

// What the rules look up, and the keys of items, worked out once for a run.
#[derive(Clone, Copy)]
pub(crate) struct Lookups<'g, 'h, 'a> {
    pub(crate) run: RunTables<'g, 'h, 'a>,
    pub(crate) keys: &'a [u32; KEY_TABLE_WORDS],
}
