// Sets by class and by state: the states of a class, the classes that they all offer, and whether they offer the same.
ghost use Rattle.std.specs.Prelude.{◌≡◌, true, ◌↔◌, length, replicate};
ghost use Rattle.std.proofs.Props.{props};
ghost use Rattle.words.specs.Arrays.{Filled, sets_of};
ghost use Rattle.words.specs.LittleEndian.{byte};
ghost use Rattle.partition.specs.Classes.{crosses};
ghost use Rattle.partition.specs.Sets.{Partition, ClassOf, StatesOf, ClassMates, AllDistinct, ClasswiseEqual, OfferedByClass, offered_states};

use words::set;

// The class of each state, a byte each.
#[derive(Clone, Copy)]
pub struct Column<'a> {
    pub classes: &'a [u8],
    pub ghost partition: { Partition classes.now } by { Prim.hlevel props },
}

// The classes of the states, and the fine classes beside them.
#[derive(Clone, Copy)]
pub struct Columns<'a> {
    pub column: Column<'a>,
    pub fine: Column<'a>,
    pub ghost same_length: { length fine.classes.now ≡ length column.classes.now } by { Prim.hlevel props },
}

impl<'a> Column<'a> {
    pub fn of(classes: &'a [u8]) -> Column<'a>
        requires { Partition classes.now }
        ensures { result.classes.now ≡ classes.now }
    {
        Column { classes }
    }

    // By state, its class as a set of one.
    pub fn class_of(self) -> [u64; 64]
        ensures { ClassOf (length self.entry.classes.now) (byte self.entry.classes.now) result }
    {
        let mut sets = set::empties();
        for (s, &c) in self.classes.iter().enumerate() {
            sets[s] = set::single(usize::from(c));
        }
        sets
    }

    // Over empty sets: by class, its states.
    fn put_states(self, out: &mut [u64; 64])
        requires { out.old ≡ replicate 64 0 }
        ensures { StatesOf (length self.entry.classes.now) (byte self.entry.classes.now) out.new }
    {
        for (s, &class) in self.classes.iter().enumerate() {
            let c = usize::from(class);
            out[c] = set::union(out[c], set::single(s));
        }
    }

    // By state, the states of its class.
    pub fn class_mates(self) -> [u64; 64]
        ensures { ClassMates (length self.entry.classes.now) (byte self.entry.classes.now) result }
    {
        let mut states = set::empties();
        self.put_states(&mut states);
        let mut sets = set::empties();
        for (s, &class) in self.classes.iter().enumerate() {
            let c = usize::from(class);
            sets[s] = states[c];
        }
        sets
    }

    // No two states share a class.
    pub fn all_distinct(self) -> bool
        ensures { (result ≡ true) ↔ AllDistinct (length self.entry.classes.now) (byte self.entry.classes.now) }
    {
        let mut seen = 0;
        for &class in self.classes {
            let c = usize::from(class);
            if set::contains(seen, c) {
                return false;
            }
            seen = set::union(seen, set::single(c));
        }
        true
    }

    // The states of a class have the same word. `first` is scratch, for the first word of each class.
    pub fn classwise_equal(self, words: &[u64; 64], first: &mut [u64; 64]) -> bool
        ensures { (result ≡ true) ↔ ClasswiseEqual (length self.entry.classes.now) (byte self.entry.classes.now) words.now }
    {
        let mut seen = 0;
        for (s, &class) in self.classes.iter().enumerate() {
            let c = usize::from(class);
            if !set::contains(seen, c) {
                first[c] = words[s];
                seen = set::union(seen, set::single(c));
            }
            if first[c] != words[s] {
                return false;
            }
        }
        true
    }

    // Over full sets: by class, the classes that each of its states offers.
    fn put_offered_classes(self, out: &mut [u64; 64], offers: &[u64; 64])
        requires { out.old ≡ replicate 64 18446744073709551615 }
        ensures { OfferedByClass (length self.entry.classes.now) (byte self.entry.classes.now) offers.now out.new }
    {
        for (u, &class) in self.classes.iter().enumerate() {
            let c = usize::from(class);
            out[c] = set::intersection(out[c], offers[u]);
        }
    }
}

impl<'a> Columns<'a> {
    pub fn of(column: &'a [u8], fine: &'a [u8]) -> Columns<'a>
        requires partition { Partition column.now }
        requires fine_partition { Partition fine.now }
        requires fine_len { length fine.now ≡ length column.now }
        ensures column { result.column.classes.now ≡ column.now }
        ensures fine { result.fine.classes.now ≡ fine.now }
    {
        Columns {
            column: Column::of(column),
            fine: Column::of(fine),
        }
    }

    // The classes in place of the fine classes too.
    pub fn coarse(self) -> Columns<'a>
        ensures column { result.column.classes.now ≡ self.entry.column.classes.now }
        ensures fine { result.fine.classes.now ≡ self.entry.column.classes.now }
    {
        Columns {
            column: self.column,
            fine: self.column,
        }
    }

    // Over the start of out: by state, the states whose class each state of its fine class offers.
    pub fn put_offered_states(self, out: &mut [u64; 64], offers: &[u64; 64])
        ensures { Filled (sets_of (offered_states (length self.entry.column.classes.now) (byte self.entry.column.classes.now) (byte self.entry.fine.classes.now) offers.now)) (length self.entry.column.classes.now) out.old out.new }
    {
        let mut states = set::empties();
        self.column.put_states(&mut states);
        let mut common = [u64::MAX; 64];
        self.fine.put_offered_classes(&mut common, offers);
        for (s, &class) in self.fine.classes.iter().enumerate() {
            out[s] = set::gather(common[usize::from(class)], &states);
        }
    }

    // A class of the fine column stands in two classes of the column: the states of a fine class do not have one class.
    pub fn crosses(self) -> bool
        ensures { result ≡ crosses (length self.entry.column.classes.now) (byte self.entry.column.classes.now) (byte self.entry.fine.classes.now) }
    {
        let labels = self.column.class_of();
        let mut scratch = [0u64; 64];
        !self.fine.classwise_equal(&labels, &mut scratch)
    }
}
