// The chart: items in records of their own, in the order found, and the run over them in steps.

#![tactic(auto)]

use places::PLACES;

// An item by value, as the chart holds it: kind 0 is an active one of a rule at a plan node, kind 1 a passive one of
// a symbol; its count, its edge set as a mask, and the graph nodes of the rule's nodes or the listed nodes in eight
// places (64: none). Three words in all.
#[derive(Clone, Copy)]
pub struct ChartItem {
    pub kind: u16,
    pub of: u8,
    pub plan: u8,
    pub count: u32,
    pub edges: u64,
    pub nodes: [u8; PLACES],
}

// A record: an item, whether it is handled (0: no), and what it was made of.
#[derive(Clone, Copy)]
pub struct Record {
    pub item: ChartItem,
    pub handled: u32,
    pub first: u16,
    pub second: u16,
}
