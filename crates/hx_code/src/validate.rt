// When words and tables are valid code.

ghost use Rattle.std.specs.Prelude.{◌≡◌, ◌≢◌, ◌↔◌, ◌+◌, ◌-◌, ◌^◌, ◌<◌, ◌≤◌, ◌⊎◌, ℕ, MatchOption, IfSome, IsSome, IsTrue, Some, None, List, length, slice_get};
ghost use Rattle.std.specs.List.{All, AllByRecursion};
ghost use Rattle.hx_code.specs.Valid.{IsSpot, IsRegionOrNone, HasSpots, IsSmallFunction, IsArrayOrNone, IsGlobalOrNone, IsMain, WithinLimits, IsPrivate, IsArray, NamesKnown, successors, StandsRight, EachWord, BeginsFunctions, BeginsRegion, EachRegion, CarriesWell, InFunction, AreDistinctBy, AreApart, IsOnlyCounter, IsCounterOrNone, privates_of, IsValid};
ghost use Rattle.hx_code.specs.Valid.{pops as pops_of, pushes as pushes_of, parameters_of};
ghost use Rattle.hx_code.specs.declared.table.Spot.{Spot};
ghost use Rattle.hx_code.specs.Validation.{code_of, tables_of, IsLed, IsFine, AreOnlyEnters, HasTwoEnters, BeginsAt, EntersRegion, Reaches};

use crate::code::{Code, word_in};
use crate::table::{Carried, Func, Induct, Region, Spot, Tables};
use crate::word::{Array, Word};
use hx_tree::limits::{
    CELL_LIMIT, FUNCTION_LIMIT, GLOBAL_LIMIT, OPERAND_LIMIT, PARAMETER_LIMIT, PRIVATE_LIMIT,
};

// ---- spots and limits

fn is_region_or_none(tables: &Tables, region: Option<u32>) -> bool
    ensures { IsTrue result ↔ IsRegionOrNone (tables_of tables.now) region }
{
    match region {
        None => true,
        Some(r) => (r as usize) < tables.regions.len(),
    }
}

fn is_spot(tables: &Tables, spot: Spot) -> bool
    ensures { IsTrue result ↔ IsSpot (tables_of tables.now) spot }
{
    (spot.function as usize) < tables.functions.len() && is_region_or_none(tables, spot.region)
}

fn spots_are_known(tables: &Tables) -> bool
    ensures { IsTrue result ↔ All (IsSpot (tables_of tables.now)) tables.now.spots.items }
{
    for spot in &tables.spots {
        if !is_spot(tables, *spot) {
            return false;
        }
    }
    true
}

fn has_spots(words: &[Word], tables: &Tables) -> bool
    ensures { IsTrue result ↔ HasSpots (code_of words.now tables.now) }
{
    words.len() <= u32::MAX as usize
        && tables.spots.len() == words.len()
        && tables.regions.len() <= words.len()
        && spots_are_known(tables)
}

fn are_small(functions: &[Func]) -> bool
    ensures { IsTrue result ↔ All IsSmallFunction functions.now }
{
    for function in functions {
        let parameters = function.parameters;
        let privates = function.privates;
        if parameters as usize > PARAMETER_LIMIT
            || parameters > privates
            || privates as usize > PRIVATE_LIMIT
        {
            return false;
        }
    }
    true
}

fn are_low(spots: &[Spot]) -> bool
    ensures { IsTrue result ↔ All (λ s. s.height ≤ OPERAND_LIMIT) spots.now }
{
    for spot in spots {
        if spot.height as usize > OPERAND_LIMIT {
            return false;
        }
    }
    true
}

fn is_main(tables: &Tables) -> bool
    ensures { IsTrue result ↔ IsMain (tables_of tables.now) tables.now.main }
{
    match tables.functions.get(tables.main as usize) {
        None => false,
        Some(function) => function.parameters == 0,
    }
}

fn is_array_or_none(globals: u32, array: Option<Array>) -> bool
    ensures { IsTrue result ↔ IsArrayOrNone globals array }
{
    match array {
        None => true,
        Some(array) => array.length <= globals && array.base <= globals - array.length,
    }
}

fn is_global_or_none(globals: u32, address: Option<u32>) -> bool
    ensures { IsTrue result ↔ IsGlobalOrNone globals address }
{
    match address {
        None => true,
        Some(a) => a < globals,
    }
}

fn is_within_limits(tables: &Tables) -> bool
    ensures { IsTrue result ↔ WithinLimits (tables_of tables.now) }
{
    tables.functions.len() <= FUNCTION_LIMIT
        && are_small(&tables.functions)
        && are_low(&tables.spots)
        && tables.globals as usize <= GLOBAL_LIMIT
        && tables.opening.len() == tables.globals as usize
        && is_main(tables)
        && is_array_or_none(tables.globals, tables.input)
        && is_global_or_none(tables.globals, tables.input_length)
}

// ---- words

// How many private words a function has.
fn privates(tables: &Tables, function: u32) -> u32
    ensures { result ≡ privates_of (slice_get tables.now.functions.items function) }
{
    match tables.functions.get(function as usize) {
        None => 0,
        Some(function) => function.privates,
    }
}

fn is_array(globals: u32, array: Array) -> bool
    ensures { IsTrue result ↔ ((1 ≤ array.length) × (array.base + array.length ≤ globals)) }
{
    1 <= array.length && is_array_or_none(globals, Some(array))
}

fn is_named(tables: &Tables, word: Word, spot: Spot) -> bool
    requires { tables.now.globals ≤ GLOBAL_LIMIT }
    ensures { IsTrue result ↔ NamesKnown (tables_of tables.now) word spot }
{
    match word {
        Word::Const(_) => true,
        Word::Priv(k) => k < privates(tables, spot.function),
        Word::SetPriv(k) => k < privates(tables, spot.function),
        Word::Glob(a) => a < tables.globals + CELL_LIMIT as u32,
        Word::SetGlob(a) => a < tables.globals + CELL_LIMIT as u32,
        Word::Elem(array, _) => is_array(tables.globals, array),
        Word::SetElem(array, _) => is_array(tables.globals, array),
        Word::Dup => true,
        Word::Drop => true,
        Word::Unary(_) => true,
        Word::Binary(_, _) => true,
        Word::Jump(_) => true,
        Word::JumpFalse(_) => true,
        Word::JumpTrue(_) => true,
        Word::Call(f, _) => (f as usize) < tables.functions.len(),
        Word::Ret => true,
        Word::Print(_) => true,
        Word::Emit(_) => true,
        Word::Enter(r, _) => (r as usize) < tables.regions.len(),
        Word::Turn => true,
        Word::Leave => true,
    }
}

// How many operands a call of a function pops.
fn parameters(tables: &Tables, function: u32) -> u32
    ensures { result ≡ parameters_of (slice_get tables.now.functions.items function) }
{
    match tables.functions.get(function as usize) {
        None => 0,
        Some(function) => function.parameters,
    }
}

// How many operands a word pops.
fn pops(tables: &Tables, word: Word) -> u32
    ensures { result ≡ pops_of (tables_of tables.now) word }
{
    match word {
        Word::Const(_) => 0,
        Word::Priv(_) => 0,
        Word::SetPriv(_) => 1,
        Word::Glob(_) => 0,
        Word::SetGlob(_) => 1,
        Word::Elem(_, _) => 1,
        Word::SetElem(_, _) => 2,
        Word::Dup => 1,
        Word::Drop => 1,
        Word::Unary(_) => 1,
        Word::Binary(_, _) => 2,
        Word::Jump(_) => 0,
        Word::JumpFalse(_) => 1,
        Word::JumpTrue(_) => 1,
        Word::Call(f, _) => parameters(tables, f),
        Word::Ret => 1,
        Word::Print(_) => 1,
        Word::Emit(_) => 1,
        Word::Enter(_, _) => 0,
        Word::Turn => 0,
        Word::Leave => 0,
    }
}

// How many operands a word pushes.
fn pushes(word: Word) -> u32
    ensures is { result ≡ pushes_of word }
    ensures few { result ≤ 2 }
{
    match word {
        Word::Const(_) => 1,
        Word::Priv(_) => 1,
        Word::SetPriv(_) => 0,
        Word::Glob(_) => 1,
        Word::SetGlob(_) => 0,
        Word::Elem(_, _) => 1,
        Word::SetElem(_, _) => 0,
        Word::Dup => 2,
        Word::Drop => 0,
        Word::Unary(_) => 1,
        Word::Binary(_, _) => 1,
        Word::Jump(_) => 0,
        Word::JumpFalse(_) => 0,
        Word::JumpTrue(_) => 0,
        Word::Call(_, _) => 1,
        Word::Ret => 0,
        Word::Print(_) => 0,
        Word::Emit(_) => 0,
        Word::Enter(_, _) => 0,
        Word::Turn => 0,
        Word::Leave => 0,
    }
}

fn is_same_region(a: Option<u32>, b: Option<u32>) -> bool
    ensures { IsTrue result ↔ (a ≡ b) }
{
    match (a, b) {
        (None, None) => true,
        (Some(x), Some(y)) => x == y,
        _ => false,
    }
}

// Whether a place has this spot.
fn is_spot_at(spots: &[Spot], place: u32, spot: Spot) -> bool
    ensures { IsTrue result ↔ (slice_get spots.now place ≡ Some spot) }
{
    match spots.get(place as usize) {
        None => false,
        Some(found) => {
            found.function == spot.function
                && found.height == spot.height
                && is_same_region(found.region, spot.region)
        }
    }
}

// Whether a word leads to places of its function and region, with so many operands.
fn is_leading(tables: &Tables, word: Word, spot: Spot, place: u32, height: u32) -> bool
    requires { place + 1 < 2 ^ 32 }
    ensures { IsTrue result ↔ AllByRecursion (IsLed (tables_of tables.now) spot height) (successors place word) }
{
    let to = Spot {
        function: spot.function,
        region: spot.region,
        height,
    };
    let next = place + 1;
    match word {
        Word::Const(_) => is_spot_at(&tables.spots, next, to),
        Word::Priv(_) => is_spot_at(&tables.spots, next, to),
        Word::SetPriv(_) => is_spot_at(&tables.spots, next, to),
        Word::Glob(_) => is_spot_at(&tables.spots, next, to),
        Word::SetGlob(_) => is_spot_at(&tables.spots, next, to),
        Word::Elem(_, _) => is_spot_at(&tables.spots, next, to),
        Word::SetElem(_, _) => is_spot_at(&tables.spots, next, to),
        Word::Dup => is_spot_at(&tables.spots, next, to),
        Word::Drop => is_spot_at(&tables.spots, next, to),
        Word::Unary(_) => is_spot_at(&tables.spots, next, to),
        Word::Binary(_, _) => is_spot_at(&tables.spots, next, to),
        Word::Jump(t) => is_spot_at(&tables.spots, t, to),
        Word::JumpFalse(t) => {
            is_spot_at(&tables.spots, t, to) && is_spot_at(&tables.spots, next, to)
        }
        Word::JumpTrue(t) => {
            is_spot_at(&tables.spots, t, to) && is_spot_at(&tables.spots, next, to)
        }
        Word::Call(_, _) => is_spot_at(&tables.spots, next, to),
        Word::Ret => true,
        Word::Print(_) => is_spot_at(&tables.spots, next, to),
        Word::Emit(_) => is_spot_at(&tables.spots, next, to),
        Word::Enter(_, t) => is_spot_at(&tables.spots, t, to),
        Word::Turn => true,
        Word::Leave => true,
    }
}

// Whether `turn` and `leave` stand in a region, and `enter` in none, without operands.
fn is_standing(word: Word, spot: Spot) -> bool
    ensures { IsTrue result ↔ StandsRight word spot }
{
    match word {
        Word::Const(_) => true,
        Word::Priv(_) => true,
        Word::SetPriv(_) => true,
        Word::Glob(_) => true,
        Word::SetGlob(_) => true,
        Word::Elem(_, _) => true,
        Word::SetElem(_, _) => true,
        Word::Dup => true,
        Word::Drop => true,
        Word::Unary(_) => true,
        Word::Binary(_, _) => true,
        Word::Jump(_) => true,
        Word::JumpFalse(_) => true,
        Word::JumpTrue(_) => true,
        Word::Call(_, _) => true,
        Word::Ret => true,
        Word::Print(_) => true,
        Word::Emit(_) => true,
        Word::Enter(_, _) => spot.region.is_none() && spot.height == 0,
        Word::Turn => spot.region.is_some() && spot.height == 0,
        Word::Leave => spot.region.is_some() && spot.height == 0,
    }
}

fn is_fine(tables: &Tables, place: u32, word: Word, spot: Spot) -> bool
    requires globals { tables.now.globals ≤ GLOBAL_LIMIT }
    requires place { place + 1 < 2 ^ 32 }
    requires low { spot.height ≤ OPERAND_LIMIT }
    ensures { IsTrue result ↔ IsFine (tables_of tables.now) place word spot }
{
    let popped = pops(tables, word);
    is_named(tables, word, spot)
        && popped <= spot.height
        && is_leading(
            tables,
            word,
            spot,
            place,
            spot.height - popped + pushes(word),
        )
        && is_standing(word, spot)
}

fn words_are_fine(words: &[Word], tables: &Tables) -> bool
    requires spots { HasSpots (code_of words.now tables.now) }
    requires limits { WithinLimits (code_of words.now tables.now) }
    ensures { IsTrue result ↔ EachWord (code_of words.now tables.now) (IsFine (tables_of tables.now)) }
{
    for place in 0..words.len() as u32 {
        let word = word_in(words, place);
        let spot = spot_in(&tables.spots, place);
        if !is_fine(tables, place, word, spot) {
            return false;
        }
    }
    true
}

fn spot_in(spots: &[Spot], place: u32) -> Spot
    requires { place < length spots.now }
    ensures { slice_get spots.now place ≡ Some result }
{
    spots[place as usize]
}

// ---- functions

fn function_in(functions: &[Func], index: u32) -> &Func
    requires { index < length functions.now }
    ensures { slice_get functions.now index ≡ Some result.now }
{
    &functions[index as usize]
}

fn functions_begin(tables: &Tables) -> bool
    requires { length tables.now.functions.items ≤ FUNCTION_LIMIT }
    ensures { IsTrue result ↔ BeginsFunctions (tables_of tables.now) }
{
    for index in 0..tables.functions.len() as u32 {
        let function = function_in(&tables.functions, index);
        let own = Spot {
            function: index,
            region: None,
            height: 0,
        };
        if !is_spot_at(&tables.spots, function.entry, own) {
            return false;
        }
    }
    true
}

// ---- regions

// No place of a word.
const NOWHERE: u32 = u32::MAX;

// How many regions are looked at in one walk over the words.
const WALK: usize = 256;

// Which of the regions from `first` on a word enters.
fn entered(word: Word, first: u32) -> Option<usize>
    ensures { MatchOption result ((i : ℕ) → i < 256 → EntersRegion word (first + i) → ⊥) (λ i. (i < 256) × EntersRegion word (first + i)) }
{
    match word {
        Word::Enter(region, _) => {
            if region < first {
                return None;
            }
            let index = (region - first) as usize;
            if index < WALK { Some(index) } else { None }
        }
        _ => None,
    }
}

// The place of the one `enter` of each region from `first` on, or NOWHERE; false where one has two.
fn find_enters(words: &[Word], first: u32, places: &mut [u32; WALK]) -> bool
    requires { length words.now < 2 ^ 32 }
    ensures found { IsTrue result → AreOnlyEnters words.now NOWHERE (length words.now) first places.new }
    ensures twice { IsTrue result ⊎ HasTwoEnters words.now }
{
    *places = [NOWHERE; WALK];
    for place in 0..words.len() as u32 {
        let word = word_in(words, place);
        match entered(word, first) {
            None => {}
            Some(index) => {
                if places[index] != NOWHERE {
                    return false;
                }
                places[index] = place;
            }
        }
    }
    true
}

fn region_in(regions: &[Region], index: u32) -> &Region
    requires { index < length regions.now }
    ensures { slice_get regions.now index ≡ Some result.now }
{
    &regions[index as usize]
}

// Whether a region begins and ends in the function of its `enter`, which has this spot.
fn begins_at(tables: &Tables, index: u32, region: &Region, enter: Spot) -> bool
    ensures { IsTrue result ↔ BeginsAt (tables_of tables.now) index region.now enter }
{
    let inside = Spot {
        function: enter.function,
        region: Some(index),
        height: 0,
    };
    let behind = Spot {
        function: enter.function,
        region: None,
        height: 0,
    };
    is_spot_at(&tables.spots, region.start, inside)
        && is_spot_at(&tables.spots, region.exit, behind)
}

// The same for regions from `index` on where the table doesn't reach that far; false where one has two.
fn reach(words: &[Word], index: u32, first: &mut u32, places: &mut [u32; WALK]) -> bool
    requires few { length words.now < 2 ^ 32 }
    requires low { first.old ≤ index }
    requires found { AreOnlyEnters words.now NOWHERE (length words.now) first.old places.old }
    ensures reached { IsTrue result → Reaches words.now NOWHERE index first.new places.new }
    ensures twice { IsTrue result ⊎ HasTwoEnters words.now }
{
    if ((index - *first) as usize) < WALK {
        return true;
    }
    *first = index;
    find_enters(words, index, places)
}

fn regions_begin(words: &[Word], tables: &Tables) -> bool
    requires spots { HasSpots (code_of words.now tables.now) }
    requires words { EachWord (code_of words.now tables.now) (IsFine (tables_of tables.now)) }
    ensures { IsTrue result ↔ EachRegion (code_of words.now tables.now) (BeginsRegion (code_of words.now tables.now)) }
{
    let mut places = [NOWHERE; WALK];
    let mut first = 0;
    if !find_enters(words, first, &mut places) {
        return false;
    }
    for index in 0..tables.regions.len() as u32 {
        if !reach(words, index, &mut first, &mut places) {
            return false;
        }
        let place = places[(index - first) as usize];
        if place == NOWHERE {
            return false;
        }
        let region = region_in(&tables.regions, index);
        let enter = spot_in(&tables.spots, place);
        if !begins_at(tables, index, region, enter) {
            return false;
        }
    }
    true
}

// ---- carried and copied words

fn cells_are_distinct(carried: &[Carried]) -> bool
    ensures { IsTrue result ↔ AreDistinctBy (λ c. c.cell) carried.now }
{
    for i in 0..carried.len() {
        for j in i + 1..carried.len() {
            if carried[i].cell == carried[j].cell {
                return false;
            }
        }
    }
    true
}

fn carried_are_distinct(carried: &[Carried]) -> bool
    ensures { IsTrue result ↔ AreDistinctBy (λ c. c.private) carried.now }
{
    for i in 0..carried.len() {
        for j in i + 1..carried.len() {
            if carried[i].private == carried[j].private {
                return false;
            }
        }
    }
    true
}

fn copied_are_distinct(copied: &[u32]) -> bool
    ensures { IsTrue result ↔ AreDistinctBy (λ k. k) copied.now }
{
    for i in 0..copied.len() {
        for j in i + 1..copied.len() {
            if copied[i] == copied[j] {
                return false;
            }
        }
    }
    true
}

fn are_apart(carried: &[Carried], copied: &[u32]) -> bool
    ensures { IsTrue result ↔ AreApart carried.now copied.now }
{
    for i in 0..carried.len() {
        for j in 0..copied.len() {
            if carried[i].private == copied[j] {
                return false;
            }
        }
    }
    true
}

fn are_in_cells(carried: &[Carried]) -> bool
    ensures { IsTrue result ↔ All (λ c. c.cell < CELL_LIMIT) carried.now }
{
    for pair in carried {
        if pair.cell as usize >= CELL_LIMIT {
            return false;
        }
    }
    true
}

fn carried_are_below(carried: &[Carried], privates: u32) -> bool
    ensures { IsTrue result ↔ All (λ c. c.private < privates) carried.now }
{
    for pair in carried {
        if pair.private >= privates {
            return false;
        }
    }
    true
}

fn copied_are_below(copied: &[u32], privates: u32) -> bool
    ensures { IsTrue result ↔ All (λ k. k < privates) copied.now }
{
    for private in copied {
        if *private >= privates {
            return false;
        }
    }
    true
}

fn is_counter_or_none(tables: &Tables, function: u32, counter: Option<Induct>) -> bool
    ensures { IsTrue result ↔ IsCounterOrNone (tables_of tables.now) function counter }
{
    match counter {
        None => true,
        Some(c) => c.private < privates(tables, function),
    }
}

fn is_within(tables: &Tables, region: &Region, function: u32) -> bool
    ensures { IsTrue result ↔ InFunction (tables_of tables.now) region.now function }
{
    let privates = privates(tables, function);
    carried_are_below(&region.carried, privates)
        && copied_are_below(&region.copied, privates)
        && is_counter_or_none(tables, function, region.induct)
}

fn is_in_function(tables: &Tables, region: &Region) -> bool
    ensures { IsTrue result ↔ ((s : Spot) → slice_get tables.now.spots.items region.now.start ≡ Some s → InFunction (tables_of tables.now) region.now s.function) }
{
    match tables.spots.get(region.start as usize) {
        None => true,
        Some(start) => is_within(tables, region, start.function),
    }
}

fn is_not_carried(carried: &[Carried], private: u32) -> bool
    ensures { IsTrue result ↔ All (λ d. d.private ≢ private) carried.now }
{
    for pair in carried {
        if pair.private == private {
            return false;
        }
    }
    true
}

fn is_not_copied(copied: &[u32], private: u32) -> bool
    ensures { IsTrue result ↔ All (λ k. k ≢ private) copied.now }
{
    for other in copied {
        if *other == private {
            return false;
        }
    }
    true
}

// Whether a counter's private word is neither carried nor copied.
fn is_only_counter(counter: Option<Induct>, carried: &[Carried], copied: &[u32]) -> bool
    ensures { IsTrue result ↔ IsOnlyCounter counter carried.now copied.now }
{
    match counter {
        None => true,
        Some(c) => is_not_carried(carried, c.private) && is_not_copied(copied, c.private),
    }
}

fn carries_well(tables: &Tables, region: &Region) -> bool
    ensures { IsTrue result ↔ CarriesWell (tables_of tables.now) region.now }
{
    let carried = region.carried.as_slice();
    let copied = region.copied.as_slice();
    are_in_cells(carried)
        && is_in_function(tables, region)
        && cells_are_distinct(carried)
        && carried_are_distinct(carried)
        && copied_are_distinct(copied)
        && are_apart(carried, copied)
        && is_only_counter(region.induct, carried, copied)
}

fn regions_carry_well(tables: &Tables) -> bool
    requires { length tables.now.regions.items < 2 ^ 32 }
    ensures { IsTrue result ↔ EachRegion (tables_of tables.now) (λ r g. CarriesWell (tables_of tables.now) g) }
{
    for index in 0..tables.regions.len() as u32 {
        if !carries_well(tables, region_in(&tables.regions, index)) {
            return false;
        }
    }
    true
}

// ---- the whole

fn is_valid(words: &[Word], tables: &Tables) -> bool
    ensures { IsTrue result ↔ IsValid (code_of words.now tables.now) }
{
    if !has_spots(words, tables) || !is_within_limits(tables) {
        return false;
    }
    if !words_are_fine(words, tables) {
        return false;
    }
    if !functions_begin(tables) {
        return false;
    }
    regions_begin(words, tables) && regions_carry_well(tables)
}

/// Code of these words and tables, exactly where they are valid: each word finds its operands and
/// leads to words of its function and region, whatever it meets in the store. Takes no memory.
pub fn validate(words: Vec<Word>, tables: Tables) -> Option<Code>
    ensures code { IfSome result (λ c. c ≡ code_of words.items tables) }
    ensures valid { IsSome result ↔ IsValid (code_of words.items tables) }
{
    if !is_valid(&words, &tables) {
        return None;
    }
    Some(Code::of(words, tables))
}
