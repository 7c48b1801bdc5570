// The limit of a column under a finer one: the largest number of fine classes in one class.
ghost use Rattle.std.specs.Prelude.{ℕ, ◌≡◌, length, get_or, replicate};
ghost use Rattle.bounded.specs.Search.{largest};
ghost use Rattle.words.specs.LittleEndian.{byte};
ghost use Rattle.partition.specs.Classes.{limit};
ghost use Rattle.partition.specs.Sets.{FineClasses};

use crate::classes::{Column, Columns};
use words::set;

impl<'a> Column<'a> {
    // The largest count of the class of a state.
    fn largest_count(self, counts: &[usize; 64]) -> usize
        ensures { result ≡ largest (length self.entry.classes.now) (λ (s : ℕ). get_or counts.now (byte self.entry.classes.now s) 0) }
    {
        let mut most = 0;
        for &class in self.classes {
            most = most.max(counts[usize::from(class)]);
        }
        most
    }
}

impl<'a> Columns<'a> {
    // Over zeros: by class, how many fine classes have their first state in it.
    fn put_counts(self, out: &mut [usize; 64])
        requires { out.old ≡ replicate 64 0 }
        ensures { FineClasses (length self.entry.column.classes.now) (byte self.entry.column.classes.now) (byte self.entry.fine.classes.now) out.new }
    {
        let mut seen = 0;
        for (&class, &finer) in self.column.classes.iter().zip(self.fine.classes) {
            let c = usize::from(class);
            let f = usize::from(finer);
            out[c] += usize::from(!set::contains(seen, f));
            seen = set::union(seen, set::single(f));
        }
    }

    // The largest number of fine classes in one class.
    pub fn limit(self) -> usize
        ensures { result ≡ limit (length self.entry.column.classes.now) (byte self.entry.column.classes.now) (byte self.entry.fine.classes.now) }
    {
        let mut counts = [0usize; 64];
        self.put_counts(&mut counts);
        self.column.largest_count(&counts)
    }
}
