//! How a script's text is read.
#![tactic(auto, unfolding(crate::proofs::Computing::row))]

ghost use Rattle.std.specs.Prelude.{◌≡◌};
ghost use Rattle.pcm_desk.specs.Usual.{usual_device};
ghost use Rattle.pcm_rows.specs.Calls.{accepted, judged};
ghost use Rattle.pcm_rows.specs.Texts.{decorated_text, decorated_script, hex_text, hex_script, interrupts_text, interrupts_script, ask_lines, ask_script, mixer_script, mixer_text, plain_words, plain_requests, numbered_words, numbered_requests};

/// Comments, empty lines, blanks and a carriage return at a line's end say nothing.
pub fn comments_and_empty_lines()
    ensures verdict { judged usual_device decorated_text ≡ accepted decorated_script }
{}

/// Hexadecimal digits of either case stand for the same, in numbers and in bytes.
pub fn hex_of_either_case()
    ensures verdict { judged usual_device hex_text ≡ accepted hex_script }
{}

/// An interrupt without a number takes a block.
pub fn interrupt_without_a_number()
    ensures verdict { judged usual_device interrupts_text ≡ accepted interrupts_script }
{}

/// Each request has a line with its name, and with its number where it has one. Whether the number
/// is in its set is no matter of the text.
pub fn line_for_each_request()
    ensures plain { judged usual_device (ask_lines plain_words) ≡ accepted (ask_script plain_requests) }
    ensures numbered { judged usual_device (ask_lines numbered_words) ≡ accepted (ask_script numbered_requests) }
{}

/// A request to the mixer device has no descriptor, and asks for a volume where it names none. Whether
/// there is such a slot is no matter of the text.
pub fn lines_of_the_mixer_device()
    ensures verdict { judged usual_device mixer_text ≡ accepted mixer_script }
{}
