//! What an event leaves: bytes in a file, and then a line.

ghost use Rattle.std.specs.Prelude.{IsTrue, OnErr, OnOk};
ghost use Rattle.pcm_outside.specs.Results.{DoesAppend};
ghost use Rattle.pcm_inputs.specs.Outside.{both, ◌over◌};
ghost use Rattle.pcm_replay.specs.Turns.{CutsTurn, OnlyAdds, WritesTurn};

use pcm_outside::{Files, Sink, WriteFault};

/// Appends the bytes that an event handed over, where there are any, and then puts its line.
pub fn write_turn<F: Files, K: Sink>(
    files: &mut F,
    out: &mut K,
    bytes: &[u8],
    line: &[u8],
) -> Result<(), WriteFault>
    requires created { IsTrue (F.seen files.old).stands }
    ensures only { OnlyAdds over both F.seen K.seen files out }
    ensures ok { OnOk result (WritesTurn bytes.now line.now over both F.seen K.seen files out) }
    ensures err { OnErr result (CutsTurn bytes.now line.now over both F.seen K.seen files out) }
{
    let Ok(()) = append_some(files, bytes) else {
        return Err(WriteFault);
    };
    out.put(line)
}

/// Appends a piece, where there is something of it.
pub fn append_some<F: Files>(files: &mut F, piece: &[u8]) -> Result<(), WriteFault>
    requires { IsTrue (F.seen files.old).stands }
    ensures { DoesAppend (F.seen files.old) (F.seen files.new) piece.now result }
{
    if piece.is_empty() {
        return Ok(());
    }
    files.append(piece)
}
