// One call as a whole, but for its line: it is read, answered, and done if it is accepted, and the sets are stored.
ghost use Rattle.std.specs.Prelude.{◌≡◌};
ghost use Rattle.rules.specs.Board.{board_of};
ghost use Rattle.rules.specs.Refusals.{early};
ghost use Rattle.rules.specs.Step.{Kept, Once};
ghost use Rattle.effects.specs.Room.{RoomFor};
ghost use Rattle.board.specs.Taking.{Allowed, TakePost, stored_in, named_limits, sets_left, CarriedOut};

use answers::answer_of;
use authorities::{StoredSets, gather, limits_of};
use decode::decode;
use effects::effect_of;
use rules::{Answer, Call, Refusal, Register, Seven};

// 4: the stamp is before that of the last accepted call.
#[tactic(auto, unfolding(rules::specs::Board::board_of, rules::specs::Refusals::early))]
fn is_early(register: &Register, s: Seven) -> bool
    ensures { result ≡ early (board_of register.now) s }
{
    (s.day, s.time) < (register.day, register.time)
}

// The call that the seven numbers are, where nothing refuses it.
fn allow(register: &Register, s: Seven) -> Result<Call, Refusal>
    requires { Kept register.now }
    ensures { Allowed (board_of register.now) s result }
{
    let call = decode(register.portions, register.gates.len(), s)?;
    if is_early(register, s) {
        return Err(Refusal::Clock);
    }
    answer_of(register, s, call)?;
    Ok(call)
}

// The limits of the two authorities that the call names, or of the one and 0, where it may change what is in force and
// so the three sets: of accepted calls no other changes one.
#[tactic(auto, unfolding(rules::specs::Board::board_of, rules::specs::Board::authority))]
fn named_limits(register: &Register, call: Call) -> Option<(u64, u64)>
    ensures { result ≡ named_limits (board_of register.now) call }
{
    match call {
        Call::Grant { authority, .. } | Call::Fulfil { authority, .. } => {
            Some((limits_of(&register.authorities, authority), 0))
        }
        Call::Continue { old, new, .. } => Some((
            limits_of(&register.authorities, old),
            limits_of(&register.authorities, new),
        )),
        _ => None,
    }
}

// The three sets, as the register holds them.
fn stored_in(register: &Register) -> StoredSets
    ensures { result ≡ stored_in register.now }
{
    StoredSets {
        exclusive_held: register.exclusive_held,
        twa_held: register.twa_held,
        needed: register.needed,
    }
}

// The three sets behind an accepted call: made anew where it may change them, else those held before it.
fn sets_left(register: &Register, held: StoredSets, named: Option<(u64, u64)>) -> StoredSets
    ensures { result ≡ sets_left (board_of register.now) held named }
{
    match named {
        Some((x, y)) => gather(register, held.needed, x, y),
        None => held,
    }
}

// Does what the accepted call does, but for its stamp, and stores the three sets.
#[tactic(auto, unfolding(rules::specs::Board::board_of))]
fn carry_out(register: &mut Register, call: Call)
    requires room { RoomFor (board_of register.old) call }
    requires once { Once (board_of register.old) }
    ensures { CarriedOut register.old call register.new }
{
    let held = stored_in(register);
    let named = named_limits(register, call);
    effect_of(register, call);
    let sets = sets_left(register, held, named);
    register.exclusive_held = sets.exclusive_held;
    register.twa_held = sets.twa_held;
    register.needed = sets.needed;
}

// A call that has room for its line. One that is refused leaves the register as it was.
// Kept: `Kept`, as board's `call` says.
pub fn take(register: &mut Register, s: Seven) -> Answer
    requires { Kept register.old }
    ensures { TakePost register.old s register.new result }
{
    let call = allow(register, s)?;
    carry_out(register, call);
    register.day = s.day;
    register.time = s.time;
    match call {
        Call::Request { .. } => Ok(Some(register.last)),
        _ => Ok(None),
    }
}
