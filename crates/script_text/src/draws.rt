//! The numbers that the generator draws.
ghost use Rattle.std.specs.Prelude.{◌≡◌, ◌≤◌, ◌%◌};
ghost use Rattle.script_text.specs.Generator.{next as plain_next};

/// What the next number follows from.
#[derive(Clone, Copy, Debug, PartialEq, Eq)]
pub(crate) struct Draws {
    number: u32,
}

/// What one round draws.
#[derive(Clone, Copy, Debug, PartialEq, Eq)]
pub(crate) struct Round {
    /// Which round it is, from 2.
    pub number: u32,
    /// The directory and the number of the file that grows.
    pub grown_dir: u32,
    pub grown_file: u32,
    /// The directory in which the round makes a file, and the one to which it moves it.
    pub made_in: u32,
    pub moved_to: u32,
}

impl Draws {
    pub(crate) fn start(seed: u32) -> Draws
        ensures { result.number ≡ seed % 65537 }
    {
        Draws {
            number: seed % 65537,
        }
    }

    /// Draws a number below a bound.
    fn draw(&mut self, bound: u32) -> u32
        requires { 1 ≤ bound }
        ensures next { self.new.number ≡ plain_next self.old.number }
        ensures drawn { result ≡ plain_next self.old.number % bound }
    {
        self.number = ((75 * u64::from(self.number) + 74) % 65537) as u32;
        self.number % bound
    }

    /// Draws what a round needs, in the order of its fields.
    pub(crate) fn round(&mut self, number: u32, dirs: u32, files: u32) -> Round
        requires dirs { 1 ≤ dirs }
        requires files { 1 ≤ files }
        ensures next { self.new.number ≡ plain_next (plain_next (plain_next (plain_next self.old.number))) }
        ensures number { result.number ≡ number }
        ensures grown_dir { result.grown_dir ≡ plain_next self.old.number % dirs }
        ensures grown_file { result.grown_file ≡ plain_next (plain_next self.old.number) % files }
        ensures made_in { result.made_in ≡ plain_next (plain_next (plain_next self.old.number)) % dirs }
        ensures moved_to { result.moved_to ≡ plain_next (plain_next (plain_next (plain_next self.old.number))) % dirs }
    {
        Round {
            number,
            grown_dir: self.draw(dirs),
            grown_file: self.draw(files),
            made_in: self.draw(dirs),
            moved_to: self.draw(dirs),
        }
    }
}
