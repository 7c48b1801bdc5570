// An accepted record.
ghost use Rattle.std.specs.Prelude.{◌≡◌};
ghost use Rattle.std.proofs.Props.{props};
ghost use Rattle.part.specs.Record.{kind};
ghost use Rattle.part.specs.Kinds.{kind_number};
ghost use Rattle.screening.specs.Rejections.{Accepted};

use part::{Kind, Record};

#[derive(Clone, Copy)]
pub struct Screened<'a> {
    pub record: Record<'a>,
    pub ghost accepted: { Accepted record.bytes.now } by { Prim.hlevel props },
}

impl<'a> Screened<'a> {
    pub fn of(b: Record<'a>) -> Screened<'a>
        requires { Accepted b.bytes.now }
        ensures { result.record.bytes.now ≡ b.entry.bytes.now }
    {
        Screened { record: b }
    }

    pub fn kind(self) -> Kind
        ensures { kind_number result ≡ kind self.entry.record.bytes.now }
    {
        self.record.kind().unwrap()
    }
}
