ghost use Rattle.std.specs.Prelude.{◌+◌, ◌<◌, ◌^◌};

/// A part of the made text that is a copy of bytes of the file. Places are counted in bytes from 0.
#[derive(Clone, Copy, Debug)]
pub struct Part {
    /// Where it begins in the made text.
    pub made: usize,
    /// Where it begins in the file.
    pub file: usize,
    pub len: usize,
    pub ghost fits: { file + len < 2 ^ 64 },
}
