// Little-endian numbers in byte slices (specs/LittleEndian.antt).
ghost use Rattle.std.specs.Prelude.{◌≡◌, ◌+◌, ◌<◌, ◌≤◌, ◌^◌, length, get_or};
ghost use Rattle.bounded.specs.Search.{each};
ghost use Rattle.words.specs.LittleEndian.{number, digits};
ghost use Rattle.words.specs.Laid.{over};

// The number in the N bytes from place at on.
pub fn number<const N: usize>(s: &[u8], at: usize) -> u64
    requires width { N ≤ 8 }
    requires room { at + N ≤ length s.now }
    ensures value { result ≡ number N s.now at }
    ensures upper_bound { result < 256 ^ N }
{
    let mut bytes = [0; 8];
    bytes[..N].copy_from_slice(&s[at..at + N]);
    u64::from_le_bytes(bytes)
}

// Lays the N lowest bytes of v over out, from place at on.
pub fn put<const N: usize>(out: &mut [u8], at: usize, v: u64)
    requires width { N ≤ 8 }
    requires room { at + N ≤ length out.old }
    ensures { out.new ≡ over out.old at (digits N v) }
{
    out[at..at + N].copy_from_slice(&v.to_le_bytes()[..N]);
}

// Eight numbers one behind the other.
pub fn put_words(out: &mut [u8], at: usize, numbers: &[u64; 8])
    requires { at + 64 ≤ length out.old }
    ensures { out.new ≡ over out.old at (each 8 (λ i. digits 8 (get_or numbers.now i 0))) }
{
    for (i, &n) in numbers.iter().enumerate() {
        put::<8>(out, at + 8 * i, n);
    }
}
