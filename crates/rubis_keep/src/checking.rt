//! What was kept, read through before it is answered again.

ghost use Rattle.std.specs.Prelude.{◌≡◌, ◌∷◌, ◌<◌, [], ℕ, List, IfErr, IfOk, IfSome, MatchBool, OnOk, true};
ghost use Rattle.rubis_keep.specs.Faults.{CountsLines, IsEdited, IsEditedAt, MayBeEdited};
ghost use Rattle.rubis_keep.specs.Lines.{HasSoundLines, are_sound, begun_after, begun_bytes};

use crate::fault::KeepFault;
use crate::lines::{KEYED_MAX, is_sound};
use rubis_engine::read_through_signals;
use std::alloc::{AllocError, Global};
use std::io::Read;
use std::sync::Wait;

// How many bytes are read at once.
const PIECE: usize = 65_536;

// Takes one byte more. Whether the line that may end with it is kept as it is.
#[tactic(auto, using(crate::proofs::LineFacts::sound_begun, crate::proofs::LineFacts::begun_more, crate::proofs::LineFacts::begun_full))]
fn check_byte(begun: &mut Vec<u8>, byte: u8) -> Result<bool, AllocError>
    ensures sound { IfOk result (λ sound. (line : List ℕ) → begun.old.items ≡ begun_bytes line → sound ≡ are_sound line (byte ∷ [])) }
    ensures begun { OnOk result ((line : List ℕ) → begun.old.items ≡ begun_bytes line → begun.new.items ≡ begun_bytes (begun_after line (byte ∷ []))) }
{
    if byte == b'\n' {
        let sound = is_sound(begun);
        begun.clear();
        return Ok(sound);
    }
    if begun.len() <= KEYED_MAX {
        begun.push(byte)?;
    }
    Ok(true)
}

// Takes the bytes of a piece, up to the first line that isn't kept as it is. Whether there is none. Counts the lines.
#[tactic(auto, using(crate::proofs::LineFacts::begun_take_more, crate::proofs::SoundFacts::sound_take_more))]
fn check_bytes(begun: &mut Vec<u8>, piece: &[u8], lines: &mut u64) -> Result<bool, AllocError>
    ensures sound { IfOk result (λ sound. (line : List ℕ) → begun.old.items ≡ begun_bytes line → sound ≡ are_sound line piece.now) }
    ensures begun { IfOk result (λ sound. sound ≡ true → (line : List ℕ) → begun.old.items ≡ begun_bytes line
        → begun.new.items ≡ begun_bytes (begun_after line piece.now)) }
    ensures lines { IfOk result (λ sound. MatchBool sound (CountsLines lines.old lines.new piece.now)
        ((line : List ℕ) → begun.old.items ≡ begun_bytes line → IsEdited line piece.now lines.old lines.new)) }
{
    for byte in piece {
        if !check_byte(begun, *byte)? {
            return Ok(false);
        }
        if *byte == b'\n' {
            *lines = lines.saturating_add(1);
        }
    }
    Ok(true)
}

/// Reads what was kept, and refuses it if it has a line that isn't kept as it is.
pub(crate) fn check_kept<T: Wait, C: Read>(
    rt: &T,
    alloc: Global,
    kept: &mut C,
) -> Result<(), KeepFault>
    ensures sound { OnOk result (IfSome (C.remaining kept.old) (λ text. HasSoundLines [] text)) }
    ensures edited { IfErr result (λ e. MayBeEdited e (λ n. IfSome (C.remaining kept.old) (λ text. IsEditedAt text n))) }
{
    let mut piece = [0; PIECE];
    let mut begun = Vec::new(alloc);
    let mut lines = 0;
    for _turn in rt.forever() {
        match read_through_signals(kept, &mut piece) {
            Ok(0) => return Ok(()),
            Ok(given) => {
                if !check_bytes(&mut begun, &piece[..given], &mut lines)? {
                    return Err(KeepFault::Edited(lines.saturating_add(1)));
                }
            }
            Err(e) => return Err(KeepFault::ReadKept(e)),
        }
    }
    unreachable!()
}
