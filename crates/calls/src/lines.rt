// A call line read: the seven numbers of a call in columns of six.
ghost use Rattle.std.specs.Prelude.{◌≡◌};
ghost use Rattle.calls.specs.CallLine.{line_in};

use rules::Seven;

// The call on a line: a text of 43 bytes, and any other is malformed.
#[tactic(auto, using(columns::proofs::Rows::numbers_asked), unfolding(crate::specs::CallLine::line_in))]
pub fn read_line(text: &[u8]) -> Option<Seven>
    ensures { result ≡ line_in text.now }
{
    let [day, time, call, a, b, c, d] = columns::read_row::<7>(text, &[6; 7], 65535)?;
    Some(Seven {
        day,
        time,
        call,
        a,
        b,
        c,
        d,
    })
}
