// What stands in a replay script. specs/Answers.antt gives each its meaning.
ghost use Rattle.std.specs.Prelude.{◌≡◌};
ghost use Rattle.script.specs.Operation.{size};

// A call that changes the shelf. Load has its record.
#[derive(Clone, Copy)]
pub enum Call<'a> {
    Clear,
    Load(&'a [u8]),
    Hookup(usize, usize),
}

#[derive(Clone, Copy)]
pub enum Operation<'a> {
    Call(Call<'a>),
    Count,
    Part(usize),
}

// Why no operation can be read.
#[derive(Clone, Copy, PartialEq, Eq, Debug)]
pub enum Stop {
    // The end of the script cuts the operation off.
    Truncated,
    Unknown,
}

impl<'a> Operation<'a> {
    ghost use Rattle.script.specs.Answers.{operation_of};

    // How many bytes of a script it takes.
    #[tactic(auto, unfolding(crate::specs::Operation::size, crate::specs::Answers::operation_of, crate::specs::Answers::operation_of_call))]
    pub fn size(self) -> usize
        ensures { result ≡ size (operation_of self.entry) }
    {
        match self {
            Operation::Call(Call::Clear) => 1,
            Operation::Call(Call::Load(record)) => 5 + record.len(),
            Operation::Call(Call::Hookup(_, _)) => 9,
            Operation::Count => 1,
            Operation::Part(_) => 5,
        }
    }
}
