// A plan line by its three fields.
ghost use Rattle.std.specs.Prelude.{◌≡◌, ◌<◌, length};
ghost use Rattle.questions.specs.Layout.{plan_place, plan_kind, plan_first, plan_second};

// The fields of a plan line.
#[derive(Clone, Copy)]
pub struct PlanLine {
    pub kind: u64,
    pub first: u64,
    pub second: u64,
}

// Plan line q of rule r, as it stands in a table that has it.
pub fn line_in(g: &[u64], r: u64, q: u64) -> PlanLine
    requires { plan_place r q < length g.now }
    ensures { (result.kind ≡ plan_kind g.now r q) × (result.first ≡ plan_first g.now r q) × (result.second ≡ plan_second g.now r q) }
{
    PlanLine {
        kind: crate::plan_kind_in(g, r, q),
        first: crate::plan_first_in(g, r, q),
        second: crate::plan_second_in(g, r, q),
    }
}
