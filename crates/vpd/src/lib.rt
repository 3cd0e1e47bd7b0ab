// VPD 2.0: what opens an entry, its length bytes and its rules.
#![tactic(auto)]

ghost use Rattle.std.specs.Prelude.{◌≡◌, ◌&&◌, ◌≤◌, ltb, length, get_or};
ghost use Rattle.layout.specs.Bytes.{all};
ghost use Rattle.layout.specs.Vpd.{groups, keyed_head, vpd_head, key_byte, vpd_reader_key, vpd_writer_key, vpd_rule};

use layout::Head;

// The length that begins at `start`: seven bits a byte, at most four bytes.
pub fn group_length(s: &[u8], start: usize) -> Result<(usize, usize), u32>
    ensures { result ≡ groups 4 0 start s.now }
{
    let mut n: usize = 0;
    let mut at = start;
    for _ in 0u32..4 {
        if s.len() <= at {
            return Err(5);
        }
        let b = s[at];
        n = n * 128 + (b % 128) as usize;
        at += 1;
        if b < 128 {
            return Ok((n, at));
        }
    }
    Err(6)
}

// The head of an entry of this code, whose key's length begins at 1.
fn keyed_head(s: &[u8], code: u32) -> Result<Option<Head>, u32>
    requires { (1 ≤ length s.now) × (code ≡ get_or s.now 0 0) }
    ensures { result ≡ keyed_head (groups 4 0 1 s.now) s.now }
{
    let (n, j) = group_length(s, 1)?;
    if s.len() - j < n {
        return Err(5);
    }
    Ok(Some(Head {
        code,
        key: j,
        klen: n,
        at: j + n,
    }))
}

pub fn vpd_head(s: &[u8]) -> Result<Option<Head>, u32>
    ensures { result ≡ vpd_head s.now }
{
    if s.len() <= 0 {
        return Err(5);
    }
    let code = s[0] as u32;
    match code {
        0x00 | 0xFF => Ok(None),
        0x01 | 0xFE => keyed_head(s, code),
        _ => Err(6),
    }
}

// The writer's rule on the key of a 01h: it is not empty, and all its bytes are of the alphabet.
fn key_rule(key: &[u8]) -> bool
    ensures { result ≡ (ltb 0 (length key.now) && all key_byte key.now) }
{
    !key.is_empty() && key.iter().all(|b| b.is_ascii_alphanumeric() || *b == b'_')
}

// The writer's rule on a key.
#[tactic(auto, unfolding(layout::specs::Vpd::vpd_writer_key))]
pub fn vpd_writer_key(code: u32, key: &[u8]) -> bool
    ensures { result ≡ vpd_writer_key code key.now }
{
    code != 0x01 || key_rule(key)
}

// The reader's rule on a key: that of a 01h is not empty.
#[tactic(auto, unfolding(layout::specs::Vpd::vpd_reader_key))]
pub fn vpd_reader_key(code: u32, key: &[u8]) -> bool
    ensures { result ≡ vpd_reader_key code key.now }
{
    code != 0x01 || !key.is_empty()
}

#[tactic(auto, unfolding(layout::specs::Vpd::vpd_rule))]
pub fn vpd_rule(code: u32, v: &[u8]) -> bool
    ensures { result ≡ vpd_rule code v.now }
{
    code != 0xFE || v.len() == 4
}
