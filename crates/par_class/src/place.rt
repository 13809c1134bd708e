ghost use Rattle.std.specs.Prelude.{◌≡◌};
ghost use Rattle.par_class.specs.Reading as reading;

/// The offset at which bytes stand that end at `end`.
pub fn place(end: u32, bytes: &[u8]) -> u32
    ensures { result ≡ reading.place end bytes.now }
{
    (end as usize).saturating_sub(bytes.len()) as u32
}
