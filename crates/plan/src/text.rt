// Reading a plan's text: lines of three numbers, the first with P, G and 0, then one for each gate.
ghost use Rattle.std.specs.Prelude.{◌≡◌, ◌*◌, ◌≤◌, length, IfSome};
ghost use Rattle.std.specs.Option.{is_some};
ghost use Rattle.columns.specs.Reading.{numbers_in};
ghost use Rattle.rules.specs.Plan.{plan_widths, is_place, are_gates, gates_on};
ghost use Rattle.plan.specs.PlanLines.{head_in, gate_in, PlanRead};

use arrayvec::ArrayVec;
use rules::Gate;

// The plan read: how many portions, and the gates in the order of their lines.
#[derive(Clone, Drop)]
pub struct Plan {
    pub portions: u16,
    pub gates: ArrayVec<Gate, 64>,
}

// The three numbers on a line.
fn read_line(line: &[u8]) -> Option<[u16; 3]>
    ensures { result ≡ numbers_in 3 65535 plan_widths line.now }
{
    columns::read_row::<3>(line, &[6; 3], 65535)
}

// P and G off line one, which is P, G, 0: P is 1 to 64, G at most 64.
#[tactic(auto, using(crate::proofs::PlanTexts::numbers_on), unfolding(crate::specs::PlanLines::head_in, rules::specs::Plan::is_head, rules::specs::Plan::plan_number))]
fn read_head(line: &[u8]) -> Option<(u16, u16)>
    requires { length line.now ≡ 19 }
    ensures { result ≡ head_in line.now }
{
    let [portions, gates, end] = read_line(line)?;
    let is_head = (1 <= portions) & (portions <= 64) & (gates <= 64) & (end == 0);
    if is_head {
        Some((portions, gates))
    } else {
        None
    }
}

// A portion of the board, or 99 for outside.
#[tactic(auto, unfolding(rules::specs::Plan::is_place))]
fn is_place(portions: u16, place: u16) -> bool
    ensures { result ≡ is_place portions place }
{
    (place < portions) | (place == 99)
}

// The gate on a line: from and to are places and differ, and the kind is 1 to 4.
#[tactic(auto, using(crate::proofs::PlanTexts::numbers_on), unfolding(crate::specs::PlanLines::gate_in, rules::specs::Plan::is_gate, rules::specs::Plan::gate_on, rules::specs::Plan::plan_number))]
fn read_gate(line: &[u8], portions: u16) -> Option<Gate>
    requires { length line.now ≡ 19 }
    ensures { result ≡ gate_in portions line.now }
{
    let [from, to, kind] = read_line(line)?;
    let is_gate = is_place(portions, from)
        & is_place(portions, to)
        & (from != to)
        & (1 <= kind)
        & (kind <= 4);
    if is_gate {
        Some(Gate { from, to, kind })
    } else {
        None
    }
}

// The gates on the lines of a text of that many lines.
#[tactic(auto, using(crate::proofs::PlanTexts::none_yet))]
fn read_gates(text: &[u8], portions: u16, count: usize) -> Option<ArrayVec<Gate, 64>>
    requires { (length text.now ≡ 19 * count) × (count ≤ 64) }
    ensures some { is_some result ≡ are_gates portions count text.now }
    ensures gates { IfSome result (λ gates. gates.items ≡ gates_on count text.now) }
{
    let mut gates = ArrayVec::new();
    for line in text.chunks_exact(19).take(count) {
        gates.push(read_gate(line, portions)?);
    }
    Some(gates)
}

// The plan in a text, of any bytes and any length.
#[tactic(auto, using(crate::proofs::PlanTexts::plan_read))]
pub fn read_plan(text: &[u8]) -> Option<Plan>
    ensures { PlanRead text.now result }
{
    let (head, gate_lines) = text.split_at_checked(19)?;
    let (portions, gate_count) = read_head(head)?;
    let count = usize::from(gate_count);
    if gate_lines.len() != 19 * count {
        return None;
    }
    let gates = read_gates(gate_lines, portions, count)?;
    Some(Plan { portions, gates })
}
