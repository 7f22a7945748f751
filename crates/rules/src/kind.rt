// The kinds of authority, and their numbers in a call and on the sheet.
ghost use Rattle.std.specs.Prelude.{◌≡◌, ◌≢◌, MatchResult};
ghost use Rattle.rules.specs.declared.kind.Kind.{Kind};
ghost use Rattle.rules.specs.Board.{kind_no};

// LPA and TOA are exclusive.
#[derive(Clone, Copy, Debug, Default, PartialEq, Eq)]
pub enum Kind {
    #[default]
    Lpa = 1,
    Toa = 2,
    Twa = 3,
}

impl From<Kind> for u16 {
    ghost from_gives = { λ kind number. number ≡ kind_no kind };

    fn from(kind: Kind) -> u16 {
        kind as u16
    }
}

// No kind has the number.
#[derive(Clone, Copy, Debug, PartialEq, Eq)]
pub struct NoSuchKind;

impl TryFrom<u16> for Kind {
    type Error = NoSuchKind;

    ghost try_from_gives = { λ number r.
        MatchResult r (λ kind. kind_no kind ≡ number) (λ _. (kind : Kind) → kind_no kind ≢ number) };

    fn try_from(number: u16) -> Result<Kind, NoSuchKind> {
        match number {
            1 => Ok(Kind::Lpa),
            2 => Ok(Kind::Toa),
            3 => Ok(Kind::Twa),
            _ => Err(NoSuchKind),
        }
    }
}
