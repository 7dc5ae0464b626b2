//! The texts of a drill.

ghost use Rattle.std.specs.Prelude.{◌≡◌, ◌-◌, ◌<◌, ◌^◌, ◌++◌, IfOk, OnOk, map};
ghost use Rattle.fix_fields.specs.Field.{text_of};
ghost use Rattle.drill_maker.specs.Bodies.{answer_of, counterparty, field_of, logon_of, order_of};

use fix_fields::put_field;
use gate_io::{Bytes, NoMemory};
use itoa::Buffer;
use std::alloc::Global;

/// The gateway's name.
pub const GATEWAY: &[u8] = b"GATE";

/// The moment of the drill, as SendingTime (52) has it.
const SENDING_TIME: &[u8] = b"20260105-09:30:00.000";

/// A field of a body.
#[derive(Clone, Copy, Debug)]
pub struct Piece<'a> {
    tag: u32,
    value: &'a [u8],
}

/// The name of a counterparty.
pub fn counterparty(alloc: Global, c: u32) -> Result<Vec<u8>, NoMemory>
    ensures { IfOk result (λ name. name.items ≡ counterparty c) }
{
    let mut name = Vec::from_slice(alloc, b"P")?;
    name.extend_from_slice(Buffer::new().format(c).as_bytes())?;
    Ok(name)
}

/// A counterparty's Logon.
#[tactic(auto, unfolding(crate::specs::Bodies::logon_of))]
pub fn logon(alloc: Global, c: u32) -> Result<Bytes, NoMemory>
    ensures { IfOk result (λ body. body ≡ logon_of c) }
{
    let them = counterparty(alloc, c)?;
    body(
        alloc,
        &[
            Piece {
                tag: 35,
                value: b"A",
            },
            Piece {
                tag: 49,
                value: them.as_slice(),
            },
            Piece {
                tag: 56,
                value: GATEWAY,
            },
            Piece {
                tag: 34,
                value: b"1",
            },
            Piece {
                tag: 52,
                value: SENDING_TIME,
            },
            Piece {
                tag: 98,
                value: b"0",
            },
            Piece {
                tag: 108,
                value: b"30",
            },
        ],
    )
}

/// A counterparty's order of a round.
#[tactic(auto, unfolding(crate::specs::Bodies::order_of))]
pub fn order(alloc: Global, c: u32, round: u32) -> Result<Bytes, NoMemory>
    requires { round < 2 ^ 32 - 2 }
    ensures { IfOk result (λ body. body ≡ order_of c round) }
{
    let them = counterparty(alloc, c)?;
    body(
        alloc,
        &[
            Piece {
                tag: 35,
                value: b"D",
            },
            Piece {
                tag: 49,
                value: them.as_slice(),
            },
            Piece {
                tag: 56,
                value: GATEWAY,
            },
            Piece {
                tag: 34,
                value: Buffer::new().format(round + 2).as_bytes(),
            },
            Piece {
                tag: 52,
                value: SENDING_TIME,
            },
            Piece {
                tag: 11,
                value: Buffer::new().format(round).as_bytes(),
            },
        ],
    )
}

/// What a library sends in a round.
#[tactic(auto, unfolding(crate::specs::Bodies::answer_of))]
pub fn answer(alloc: Global, round: u32) -> Result<Bytes, NoMemory>
    ensures { IfOk result (λ body. body ≡ answer_of round) }
{
    body(
        alloc,
        &[
            Piece {
                tag: 35,
                value: b"8",
            },
            Piece {
                tag: 37,
                value: Buffer::new().format(round).as_bytes(),
            },
        ],
    )
}

/// The body with these fields.
fn body(alloc: Global, pieces: &[Piece<'_>]) -> Result<Bytes, NoMemory>
    ensures { IfOk result (λ body. body ≡ text_of (map field_of pieces.now)) }
{
    let mut text = Vec::new(alloc);
    for piece in pieces {
        put_field(&mut text, piece.tag, piece.value)?;
    }
    Ok(Bytes::of(text))
}
