// One word of a call in slots, by itself.

ghost use Rattle.std.specs.Prelude.{◌≡◌, ◌≢◌, ℕ, ◌+◌, ◌-◌, ◌<◌, ◌≤◌, ◌^◌, ◌∷◌, pos, None, IfSome, length, slice_get, slice_set, slice_index_or};
ghost use Rattle.hx_code.specs.Call.{wants, Asks, low_byte as low_byte_of};
ghost use Rattle.hx_code.specs.Step.{HasRoom};
ghost use Rattle.hx_code.specs.Store.{Given, Lacks};
ghost use Rattle.hx_code.specs.Local.{pushed};
ghost use Rattle.hx_code.specs.Fits.{FitsCall};
ghost use Rattle.hx_table.specs.Slots.{standing, privates_in, operands_in, height_of, call_in};
ghost use Rattle.hx_single.specs.Single.{IsAlone};

use hx_code::code::{Code, word_in};
use hx_code::word::{Ask, Next, Output, Word};
use hx_instruction::number::{binary, index, unary};
use hx_tree::limits::PRIVATE_LIMIT;
use hx_tree::outcome::{Fault, FaultKind};
use hx_tree::token::Pos;

/// What a word asks, and where its call goes on.
#[derive(Clone, Copy)]
pub struct Done {
    pub ask: Ask,
    pub next: Next,
}

/// The topmost operand.
#[inline(always)]
pub fn top(slots: &[i32; 320], height: usize) -> i32
    requires some { 0 < height }
    requires room { height ≤ 256 }
    ensures { operands_in slots.now height ≡ result ∷ operands_in slots.now (height - 1) }
{
    slots[PRIVATE_LIMIT + height - 1]
}

/// Puts an operand on top.
#[inline(always)]
pub fn put(slots: &mut [i32; 320], height: usize, value: i32)
    requires { height < 256 }
    ensures operands { operands_in slots.new (height + 1) ≡ value ∷ operands_in slots.old height }
    ensures privates { privates_in slots.new ≡ privates_in slots.old }
{
    slots[PRIVATE_LIMIT + height] = value;
}

/// A private word.
#[inline(always)]
fn private(slots: &[i32; 320], k: u32) -> i32
    requires { k < 64 }
    ensures { slice_index_or (privates_in slots.now) k (pos 0) ≡ result }
{
    slots[k as usize]
}

/// Sets a private word.
#[inline(always)]
fn set_private(slots: &mut [i32; 320], k: u32, value: i32)
    requires { k < 64 }
    ensures privates { slice_set (privates_in slots.old) k value ≡ privates_in slots.new }
    ensures operands { (h : ℕ) → operands_in slots.new h ≡ operands_in slots.old h }
{
    slots[k as usize] = value;
}

/// Does what a word does to its call, and tells what it asks of those around it.
#[inline(always)]
pub fn one(word: Word, place: u32, height: usize, slots: &mut [i32; 320]) -> Done
    requires room { HasRoom word height }
    requires place { place + 1 < 2 ^ 32 }
    ensures height { result.next.height ≤ 256 }
    ensures asks { wants word (standing place slots.old height) ≡ Asks result.ask (standing result.next.place slots.new result.next.height) }
    ensures same { result.ask ≢ Ask.Goes → slots.new ≡ slots.old }
    ensures fewer { result.ask ≢ Ask.Goes → result.next.height ≤ height }
    ensures load { (a : ℕ) → result.ask ≡ Ask.Loads a → result.next.height < 256 }
{
    match word {
        Word::Const(n) => {
            put(slots, height, n);
            goes(place + 1, height + 1)
        }
        Word::Priv(k) => {
            put(slots, height, private(slots, k));
            goes(place + 1, height + 1)
        }
        Word::SetPriv(k) => {
            set_private(slots, k, top(slots, height));
            goes(place + 1, height - 1)
        }
        Word::Glob(a) => asks(place + 1, height, Ask::Loads(a)),
        Word::SetGlob(a) => asks(place + 1, height - 1, Ask::Stores(a, top(slots, height))),
        Word::Elem(array, at) => match index(top(slots, height), array.length) {
            Some(k) => asks(place + 1, height - 1, Ask::Loads(array.base + k)),
            None => asks(place, height, fault(FaultKind::IndexOutOfRange, at)),
        },
        Word::SetElem(array, at) => match index(top(slots, height - 1), array.length) {
            Some(k) => {
                let value = top(slots, height);
                asks(place + 1, height - 2, Ask::Stores(array.base + k, value))
            }
            None => asks(place, height, fault(FaultKind::IndexOutOfRange, at)),
        },
        Word::Dup => {
            put(slots, height, top(slots, height));
            goes(place + 1, height + 1)
        }
        Word::Drop => goes(place + 1, height - 1),
        Word::Unary(operator) => {
            let x = top(slots, height);
            put(slots, height - 1, unary(operator, x));
            goes(place + 1, height)
        }
        Word::Binary(operator, at) => {
            let y = top(slots, height);
            let x = top(slots, height - 1);
            match binary(operator, x, y) {
                Some(value) => {
                    put(slots, height - 2, value);
                    goes(place + 1, height - 1)
                }
                None => asks(place, height, fault(FaultKind::ZeroDivisor, at)),
            }
        }
        Word::Jump(t) => goes(t, height),
        Word::JumpFalse(t) => {
            let to = if top(slots, height) == 0 {
                t
            } else {
                place + 1
            };
            goes(to, height - 1)
        }
        Word::JumpTrue(t) => {
            let to = if top(slots, height) == 0 {
                place + 1
            } else {
                t
            };
            goes(to, height - 1)
        }
        Word::Call(f, at) => asks(place + 1, height, Ask::Calls(f, at)),
        Word::Ret => asks(place, height, Ask::Returns(top(slots, height))),
        Word::Print(at) => {
            let value = top(slots, height);
            asks(
                place + 1,
                height - 1,
                Ask::Prints(Output::Number(value), at),
            )
        }
        Word::Emit(at) => {
            let value = top(slots, height);
            asks(
                place + 1,
                height - 1,
                Ask::Prints(Output::Byte(low_byte(value)), at),
            )
        }
        Word::Enter(r, t) => asks(place, height, Ask::Enters(r, t)),
        Word::Turn => asks(place, height, Ask::Turns),
        Word::Leave => asks(place, height, Ask::Leaves),
    }
}

/// The lowest byte of a number.
#[inline(always)]
fn low_byte(value: i32) -> u8
    ensures { result ≡ low_byte_of value }
{
    (value.cast_unsigned() & 255) as u8
}

#[inline(always)]
fn goes(place: u32, height: usize) -> Done
    ensures { result ≡ record { ask = Ask.Goes; next = record { place = place; height = height } } }
{
    Done {
        ask: Ask::Goes,
        next: Next { place, height },
    }
}

#[inline(always)]
fn asks(place: u32, height: usize, ask: Ask) -> Done
    ensures { result ≡ record { ask = ask; next = record { place = place; height = height } } }
{
    Done {
        ask,
        next: Next { place, height },
    }
}

#[inline(always)]
fn fault(kind: FaultKind, at: Pos) -> Ask
    ensures { result ≡ Ask.Faults (record { kind = kind; pos = at }) }
{
    Ask::Faults(Fault { kind, pos: at })
}

/// Where the call goes on once it has what a word asked, if the store has it.
#[inline(always)]
pub fn answered(done: Done, slots: &mut [i32; 320], store: &mut [i32]) -> Option<Next>
    requires height { done.next.height ≤ 256 }
    requires room { (a : ℕ) → done.ask ≡ Ask.Loads a → done.next.height < 256 }
    ensures given { IfSome result (λ next. Given pushed store.old done.ask (standing done.next.place slots.old done.next.height) (standing next.place slots.new next.height) store.new) }
    ensures lacks { result ≡ None → Lacks (length store.old) done.ask }
    ensures same_slots { result ≡ None → slots.new ≡ slots.old }
    ensures same_store { result ≡ None → store.new ≡ store.old }
{
    match done.ask {
        Ask::Goes => Some(done.next),
        Ask::Loads(a) => {
            if (a as usize) < store.len() {
                put(slots, done.next.height, store[a as usize]);
                Some(Next {
                    place: done.next.place,
                    height: done.next.height + 1,
                })
            } else {
                None
            }
        }
        Ask::Stores(a, v) => {
            if (a as usize) < store.len() {
                store[a as usize] = v;
                Some(done.next)
            } else {
                None
            }
        }
        _ => None,
    }
}

/// What a word did by itself: it led to a place; or what it asks that the store lacks.
#[derive(Clone, Copy)]
pub enum Alone {
    Went(u32),
    Asks(Done),
}

/// How many operands a place has.
#[inline(always)]
pub fn height_at(code: &Code, place: u32) -> usize
    ensures is { result ≡ height_of (slice_get code.now.spots place) }
    ensures low { result ≤ 256 }
{
    code.known();
    match code.spots().get(place as usize) {
        Some(spot) => spot.height as usize,
        None => 0,
    }
}

/// Does the word at a place, if it asks nothing but what the store has.
pub fn word_alone(code: &Code, place: u32, slots: &mut [i32; 320], store: &mut [i32]) -> Alone
    requires { FitsCall code.now (call_in code.now place slots.old) }
    ensures { IsAlone code.now place slots.old store.old slots.new store.new result }
{
    code.known();
    let word = word_in(code.words(), place);
    let done = one(word, place, height_at(code, place), slots);
    match answered(done, slots, store) {
        Some(next) => Alone::Went(next.place),
        None => Alone::Asks(done),
    }
}

/// A call in slots has the private words and the operands of any place that there is.
pub fn stands(code: &Code, place: u32, slots: &[i32; 320])
    requires { place < length code.now.words }
    ensures { FitsCall code.now (call_in code.now place slots.now) }
{
    code.known();
}
