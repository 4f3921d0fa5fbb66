//! Where an output lies between two frames.

ghost use Rattle.std.specs.Prelude.{◌≡◌, ◌<◌};

use pcm_num::Reciprocal;

/// Where an output lies: how many frames of the input it needs, and how many parts of a whole it
/// lies past the frame under it.
#[derive(Clone, Copy)]
pub struct Point {
    pub needed: usize,
    pub whole: Reciprocal,
    pub parts: u32,
    ghost inside: { parts < whole.divisor },
}

impl Point {
    /// The point that needs `needed` frames, `parts` parts of a whole past the one under it.
    pub fn at(needed: usize, whole: Reciprocal, parts: u32) -> Point
        requires { parts < whole.divisor }
        ensures needed { result.needed ≡ needed }
        ensures whole { result.whole ≡ whole }
        ensures parts { result.parts ≡ parts }
    {
        Point {
            needed,
            whole,
            parts,
        }
    }
}
