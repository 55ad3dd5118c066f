// Entries listed by key in lent words, and five lists gone through at once in the order of their records.

#![tactic(auto)]

ghost use Rattle.std.specs.Prelude.{◌≡◌, ◌+◌, ◌≤◌, ◌<◌, length, get_or};
ghost use Rattle.lists.specs.Lists.{list_words, Linkable, tail_of, appended, entered, Ready, entered_all, Within};
ghost use Rattle.lists.specs.Cursors.{alone, starts_of, nearer, least_of, after_of, moved_on, passed_of};

// How many words the lists take. A place is a word of 16 bits, so that 0 and not an `Option` stands for none.
pub const LIST_WORDS: usize = 24578;

// The first entry of key b: its place + 1, 0 for none.
pub fn first(ws: &[u16; LIST_WORDS], b: u64) -> u64
    requires { b ≤ 2048 }
    ensures { result ≡ get_or ws.now b 0 }
{
    u64::from(ws[b as usize])
}

// The word that is to lead to the next entry of key b.
#[tactic(auto, unfolding(crate::specs::Lists::tail_of))]
fn tail(ws: &[u16; LIST_WORDS], b: u64) -> u64
    requires { (b ≤ 2048) × (get_or ws.now (2049 + b) 0 ≤ 20480) }
    ensures { (result ≡ tail_of ws.now b) × (result < list_words) }
{
    let last = u64::from(ws[(2049 + b) as usize]);
    if last == 0 { b } else { 4097 + last }
}

// Entry e, the number of entries so far, at the end of the list of b.
#[tactic(auto, unfolding(crate::specs::Lists::appended))]
fn append(ws: &mut [u16; LIST_WORDS], e: u64, b: u64)
    requires { Linkable ws.old e b × (0 < b) }
    ensures { ws.new ≡ appended ws.old e b }
{
    let at = tail(ws, b) as usize;
    ws[at] = (e + 1) as u16;
    ws[(2049 + b) as usize] = (e + 1) as u16;
    ws[(4098 + e) as usize] = 0;
}

// .. an entry with key 0 is on no list.
#[tactic(auto, unfolding(crate::specs::Lists::entered))]
fn enter(ws: &mut [u16; LIST_WORDS], e: u64, b: u64)
    requires { Linkable ws.old e b }
    ensures { ws.new ≡ entered ws.old e b }
{
    if b != 0 {
        append(ws, e, b);
    }
}

// The five entries of a record, from e on.
pub fn enter_all(ws: &mut [u16; LIST_WORDS], e: u64, bs: [u64; 5])
    requires { Ready ws.old × (e + 5 ≤ 20480) × Within 2048 bs }
    ensures { ws.new ≡ entered_all ws.old e bs }
{
    for (i, b) in bs.iter().enumerate() {
        enter(ws, e + i as u64, *b);
    }
}

// The same where a record has one key at most: its other entries are on no list.
#[tactic(auto, using(crate::proofs::ListLaws::ready_link, crate::proofs::ListLaws::entered_one_by))]
pub fn enter_one(ws: &mut [u16; LIST_WORDS], e: u64, b: u64)
    requires { Ready ws.old × (e + 5 ≤ 20480) × (b ≤ 2048) }
    ensures { ws.new ≡ entered_all ws.old e (alone b) }
{
    enter(ws, e, b);
}

// Five cursors, each at the first entry of its key; key 0 has none.
pub fn starts(ws: &[u16; LIST_WORDS], query: [u64; 5]) -> [u64; 5]
    requires { Within 2048 query }
    ensures { result ≡ starts_of ws.now query }
{
    let mut cs = query;
    for c in cs.iter_mut() {
        *c = first(ws, *c);
    }
    cs
}

// The nearer of a place + 1 and a cursor: no `min`, since a cursor is 0 at the end.
#[tactic(auto, unfolding(crate::specs::Cursors::nearer))]
fn nearer_of(m: u64, c: u64) -> u64
    ensures { (result ≡ nearer m c) × (result ≤ m) }
{
    if c == 0 || m <= c { m } else { c }
}

// The least record at which a cursor is, 4096 where all are at the end.
pub fn least(cs: [u64; 5]) -> u64
    ensures { (result ≡ least_of cs) × (result ≤ 4096) }
{
    let mut m = 20481;
    for c in cs {
        m = nearer_of(m, c);
    }
    (m - 1) / 5
}

// The entry behind the one that the cursor e is at: its place + 1, 0 for none.
pub fn after(ws: &[u16; LIST_WORDS], e: u64) -> u64
    requires { e ≤ 20480 }
    ensures { result ≡ after_of ws.now e }
{
    u64::from(ws[(4097 + e) as usize])
}

// A cursor at an entry below the place `to` goes on to the next entry of its list.
#[tactic(auto, unfolding(crate::specs::Cursors::moved_on))]
fn moved(ws: &[u16; LIST_WORDS], to: u64, c: u64) -> u64
    requires { c ≤ 20480 }
    ensures { result ≡ moved_on ws.now to c }
{
    if c == 0 || to < c { c } else { after(ws, c) }
}

// Each cursor whose record is k or before goes on by one entry; it may be at another entry of record k then.
pub fn passed(ws: &[u16; LIST_WORDS], cs: [u64; 5], k: u64) -> [u64; 5]
    requires { Within 20480 cs × (k ≤ 4096) }
    ensures { result ≡ passed_of ws.now cs k }
{
    let to = 5 * k + 5;
    let mut ds = cs;
    for c in ds.iter_mut() {
        *c = moved(ws, to, *c);
    }
    ds
}
