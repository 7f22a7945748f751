// What each accepted call does to the register.
ghost use Rattle.std.specs.Prelude.{◌≡◌, Some};
ghost use Rattle.rules.specs.Board.{board_of};
ghost use Rattle.rules.specs.Effects.{effect};
ghost use Rattle.rules.specs.Step.{Once};
ghost use Rattle.effects.specs.Room.{RoomFor};

use crate::changes::{
    booked_in, end_authority, put_booking, put_in_force, request, set_agreed, set_officer,
    set_site, set_term,
};
use crate::running::{continue_with, draw_in, free, go_through};
use authorities::limits_of;
use rules::{Booking, Call, PaperNo, Register};
use stamps::minute_of;

// Does what the accepted call does, but for its stamp.
#[tactic(auto, using(lists::proofs::Order::ascending_distinct, lists::proofs::Order::ascending_keep), unfolding(rules::specs::Board::board_of, rules::specs::Board::authority, rules::specs::Board::train, rules::specs::Effects::effect))]
pub fn effect_of(register: &mut Register, c: Call)
    requires room { RoomFor (board_of register.old) c }
    requires once { Once (board_of register.old) }
    ensures { board_of register.new ≡ effect (board_of register.old) (Some c) }
{
    match c {
        Call::Request {
            kind,
            first,
            last,
            officer,
        } => request(register, kind, first, last, officer),
        Call::Withdraw { authority, .. } => end_authority(&mut register.authorities, authority),
        Call::Agree { toa, twa, .. } => set_agreed(&mut register.authorities, twa, toa),
        Call::Block { gate } => register.blocks = sets::with(register.blocks, gate.0),
        Call::Unblock { gate } => register.blocks = sets::without(register.blocks, gate.0),
        Call::Grant { authority, .. } => put_in_force(&mut register.authorities, authority),
        Call::Clear { authority, .. } => set_site(&mut register.authorities, authority, false),
        Call::Reoccupy { authority, .. } => set_site(&mut register.authorities, authority, true),
        Call::HandOver {
            authority,
            into,
            ..
        } => set_officer(&mut register.authorities, authority, into),
        Call::Fulfil { authority, .. } => {
            end_authority(&mut register.authorities, authority);
            free(&mut register.trains, authority);
        }
        Call::Continue { old, new, .. } => {
            let limits = limits_of(&register.authorities, new);
            end_authority(&mut register.authorities, old);
            put_in_force(&mut register.authorities, new);
            continue_with(&mut register.trains, old, new, limits);
        }
        Call::Move {
            train,
            gate,
            authority,
            ..
        } => {
            let gate = gates::gate_at(&register.gates, gate);
            go_through(&mut register.trains, gate, train, authority);
        }
        Call::Passed { train } => draw_in(&mut register.trains, train),
        Call::Term {
            authority,
            day,
            time,
            minutes,
        } => set_term(
            &mut register.authorities,
            authority,
            minute_of(day, time),
            minutes,
        ),
        Call::Join { twa, toa, .. } => set_agreed(&mut register.authorities, toa, twa),
        Call::BookOut { gate, paper } => put_booking(
            &mut register.bookings,
            gate,
            Booking {
                paper,
                replaced: PaperNo(0),
            },
        ),
        Call::BookIn {
            gate,
            paper,
            certified,
            new,
        } => put_booking(
            &mut register.bookings,
            gate,
            booked_in(paper, certified, new),
        ),
    }
}
