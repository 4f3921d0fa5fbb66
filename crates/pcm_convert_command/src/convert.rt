//! The conversion of a wave into another file.

ghost use Rattle.std.specs.Prelude.{◌≡◌, ◌++◌, ℕ, List, IfErr, IfOk, IsTrue, OnOk, replicate};
ghost use Rattle.pcm_outside.specs.Results.{DoesAppend};
ghost use Rattle.pcm_convert.specs.Conversions.{converted_body};
ghost use Rattle.pcm_convert.specs.Stands.{ConversionStands, source_in, target_in};
ghost use Rattle.pcm_wave.specs.Headers.{padding};
ghost use Rattle.pcm_verdict.specs.Outputs.{output_of};
ghost use Rattle.pcm_verdict.specs.Verdict.{Converts};
ghost use Rattle.pcm_convert_command.specs.Converting.{CanAppend, CanConvert, CanConvertRates, wave_body};
ghost use Rattle.pcm_convert_command.specs.Written.{EndsOutput, WritesAll};
ghost use Rattle.pcm_inputs.specs.Outside.{both, ◌over◌};
ghost use Rattle.pcm_inputs.specs.Parts.{conversion_to};

use pcm_convert::{BLOCK, ConversionOf};
use pcm_feeder::{Feeder, RacksOf};
use pcm_format::Settings;
use pcm_inputs::Ending;
use pcm_outside::{Files, Sink, WriteFault};
use pcm_wave::{DataFile, header};
use std::alloc::{AllocError, Global};

/// Converts a wave into the file of a name: its header, the converted body block by block, and a byte of padding after
/// an odd number of bytes. All memory is taken before the file is created.
pub fn convert_wave<B: Feeder, F: Files, K: Sink>(
    alloc: Global,
    racks: RacksOf<B>,
    source: &DataFile,
    target: Settings,
    files: &mut F,
    out: &mut K,
    name: &str,
) -> Result<(), Ending>
    requires { CanConvert B.kind racks source.now target }
    ensures ok { OnOk result (WritesAll (output_of (Converts name.now (conversion_to source.now target)))
        over both F.seen K.seen files out) }
    ensures err { IfErr result (EndsOutput (output_of (Converts name.now (conversion_to source.now target)))
        over both F.seen K.seen files out) }
{
    let Ok(mut conversion) = conversion_of(alloc, racks, source.wave().settings(), target) else {
        return Err(Ending::NoMemory);
    };
    let frames = conversion.count(source.body()) as u32;
    let Ok(line) = format!(in alloc; "frames {frames}\n") else {
        return Err(Ending::NoMemory);
    };
    let Ok(mut block) = vec![in alloc; 0u8; BLOCK * target.frame_bytes()] else {
        return Err(Ending::NoMemory);
    };
    let head = header(&target, frames);
    let Ok(()) = files.create(name) else {
        return Err(Ending::CannotWrite);
    };
    let Ok(()) = append_wave(
        files,
        &head,
        &mut conversion,
        source.body(),
        frames,
        &mut block,
    ) else {
        return Err(Ending::CannotWrite);
    };
    let Ok(()) = out.put(line.as_bytes()) else {
        return Err(Ending::CannotWrite);
    };
    Ok(())
}

// A conversion with the boxes of one of the racks.
fn conversion_of<B: Feeder>(
    alloc: Global,
    racks: RacksOf<B>,
    source: Settings,
    target: Settings,
) -> Result<ConversionOf<B>, AllocError>
    requires { CanConvertRates B.kind racks source target }
    ensures source { IfOk result (λ made. source_in made ≡ source) }
    ensures target { IfOk result (λ made. target_in made ≡ target) }
    ensures stands { IfOk result (λ made. (body : List ℕ) → ConversionStands B.kept made body 0) }
{
    let mut list = racks.into_list();
    ConversionOf::new(alloc, list.swap_remove(0), source, target)
}

// Appends a whole wave: its header, its body in blocks, and its padding.
fn append_wave<B: Feeder, F: Files>(
    files: &mut F,
    head: &[u8],
    conversion: &mut ConversionOf<B>,
    body: &[u8],
    frames: u32,
    block: &mut [u8],
) -> Result<(), WriteFault>
    requires { CanAppend B.kept (F.seen files.old) conversion.old body.now frames block.old }
    ensures { DoesAppend (F.seen files.old) (F.seen files.new)
        (head.now ++ wave_body (source_in conversion.old) (target_in conversion.old) body.now) result }
{
    let Ok(()) = files.append(head) else {
        return Err(WriteFault);
    };
    let target = conversion.target();
    let Ok(()) = append_body(files, conversion, body, frames, block) else {
        return Err(WriteFault);
    };
    append_padding(files, frames as usize * target.frame_bytes())
}

// Appends the converted body, block after block.
fn append_body<B: Feeder, F: Files>(
    files: &mut F,
    conversion: &mut ConversionOf<B>,
    body: &[u8],
    frames: u32,
    block: &mut [u8],
) -> Result<(), WriteFault>
    requires { CanAppend B.kept (F.seen files.old) conversion.old body.now frames block.old }
    ensures { DoesAppend (F.seen files.old) (F.seen files.new)
        (converted_body (source_in conversion.old) (target_in conversion.old) body.now) result }
{
    let mut left = frames as usize;
    while left > 0 {
        let size = conversion.next_block(body, block);
        let Ok(()) = files.append(&block[..size]) else {
            return Err(WriteFault);
        };
        left -= left.min(BLOCK);
    }
    Ok(())
}

// Appends the byte after an odd number of bytes.
fn append_padding<F: Files>(files: &mut F, size: usize) -> Result<(), WriteFault>
    requires { IsTrue (F.seen files.old).stands }
    ensures { DoesAppend (F.seen files.old) (F.seen files.new) (replicate (padding size) 0) result }
{
    if size % 2 == 0 {
        return Ok(());
    }
    files.append(&[0])
}
