// What a register store is. docs/STORES.md has the rules.
ghost use Rattle.std.specs.Prelude.{◌≡◌, ℕ, List, length};
ghost use Rattle.stores.specs.Stores.{Sound, read_of, write_of, written_of};

use reader::types::Refusal;

// A store means a list of numbers and a limit that none of them exceeds. The limit is what `top` answers. That none does
// (`sound`) is a clause of each question, and no law: a law would ask it of values that no store has, since there a field
// of 32 bits is any number, and so a store whose own plain fields are its numbers could not be one.
pub trait Store {
    ghost numbers: { Self → List ℕ };

    ghost limit: { Self → ℕ };

    // How many numbers there are.
    fn count(&self) -> usize
        ensures sound { Sound (numbers self.now) (limit self.now) }
        ensures answer { result ≡ length (numbers self.now) };

    // The largest number that fits.
    fn top(&self) -> u32
        ensures sound { Sound (numbers self.now) (limit self.now) }
        ensures answer { result ≡ limit self.now };

    // Number i.
    fn read(&self, i: usize) -> Result<u32, Refusal>
        ensures sound { Sound (numbers self.now) (limit self.now) }
        ensures answer { result ≡ read_of (numbers self.now) i };

    // Puts v at i. A refusal changes nothing.
    fn write(&mut self, i: usize, v: u32) -> Result<(), Refusal>
        ensures same { limit self.new ≡ limit self.old }
        ensures answer { result ≡ write_of (numbers self.old) (limit self.old) i v }
        ensures written { numbers self.new ≡ written_of (numbers self.old) (limit self.old) i v };
}
