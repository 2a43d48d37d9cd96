// Sets of the numbers 0 to 511, as eight 64-bit words: the number k is bit k % 64 of word k / 64. Numbers are taken modulo 512.
#![tactic(auto)]

ghost use Rattle.std.specs.Prelude.{◌≡◌, false, true, ℕ, ◌+◌, ◌*◌, ◌-◌, ◌/◌, ◌%◌, ◌<◌, ◌≤◌, length, get_or};
ghost use Rattle.std.specs.Iterator.{at_most};
ghost use Rattle.sets.specs.Member.{member, Put, LowestFrom, Walks};

// The word that holds the number k, by a shift, and its bit there, by a mask: the customer asks for these, proved equal to the quotient and the rest.
fn word_of(k: usize) -> usize
    ensures { result ≡ k % 512 / 64 }
{
    k % 512 >> 6
}

fn bit_of(k: usize) -> usize
    ensures { result ≡ k % 512 % 64 }
{
    k & 63
}

// The set with no member.
pub fn empty() -> [u64; 8]
    ensures { (k : ℕ) → member result k ≡ false }
{
    [0; 8]
}

// Makes k a member, and changes nothing else.
pub fn insert(s: &mut [u64; 8], k: usize)
    ensures { Put s.old (k % 512) true s.new }
{
    s[word_of(k)] |= 1 << bit_of(k);
}

// Makes k no member, and changes nothing else.
pub fn remove(s: &mut [u64; 8], k: usize)
    ensures { Put s.old (k % 512) false s.new }
{
    s[word_of(k)] &= !(1 << bit_of(k));
}

// Makes k a member, or none, as b says.
pub fn put(s: &mut [u64; 8], k: usize, b: bool)
    ensures { Put s.old (k % 512) b s.new }
{
    if b {
        insert(s, k);
    } else {
        remove(s, k);
    }
}

// The lowest member of the words from i on, by the trailing zeros of the first of them that is not 0; 512 where there is none.
fn from_word(s: &[u64; 8], i: usize) -> usize
    requires { i ≤ 8 }
    ensures { LowestFrom s.now (i * 64) result }
{
    for w in i..8 {
        let x = s[w];
        if x != 0 {
            return w * 64 + x.trailing_zeros() as usize;
        }
    }
    512
}

// The lowest member, or 512 where there is none.
pub fn lowest_member(s: &[u64; 8]) -> usize
    ensures { LowestFrom s.now 0 result }
{
    from_word(s, 0)
}

// The lowest member above k, or 512 where there is none.
pub fn above(s: &[u64; 8], k: usize) -> usize
    ensures { LowestFrom s.now (k % 512 + 1) result }
{
    let w = word_of(k);
    let x = s[w] >> bit_of(k) >> 1;
    if x != 0 {
        return k % 512 + 1 + x.trailing_zeros() as usize;
    }
    from_word(s, w + 1)
}

// The members of a set above a number, in order.
#[derive(Drop)]
pub struct MembersAbove<'a> {
    pub set: &'a [u64; 8],
    // That number, and then the member that came last.
    pub last: usize,
    ghost inside: { last < 512 },
}

impl<'a> Iterator for MembersAbove<'a> {
    type Item = usize;

    ghost next_gives = { λ s r t. Walks s.set.now s.last r t.set.now t.last };

    ghost remaining = { λ s. at_most (511 - s.last) };

    fn next(&mut self) -> Option<usize> {
        let k = above(self.set, self.last);
        if k == 512 {
            return None;
        }
        self.last = k;
        Some(k)
    }
}
