// The words of a program so far, and which version of a function's words is written.

ghost use Rattle.std.specs.Prelude.{◌≡◌, ◌+◌, ◌<◌, ◌≤◌, ◌^◌, IfOk, IfSome, OkIff, OnOk, Some, [], ◌∷◌, ◌++◌, length, map, option_map};
ghost use Rattle.hx_lowering.specs.Draft.{with_lines, plain_version, cells_from, counter_of};
ghost use Rattle.hx_lowering.specs.Lines as lines;

use hx_code::table;
use hx_code::table::{Carried, Func, Region, Spot};
use hx_code::word::{Array, Word};
use hx_lowering::line::Line;
use hx_resolved::program::{Induct, Words};
use std::alloc::{AllocError, Global};
use std::marker::Model;

/// Which version of a function's words is written: the function's number, how many words the globals have, the region
/// that it is the version of, if any, and the private words that are carried in cells there.
#[derive(Drop)]
pub struct Version<'r> {
    function: u32,
    globals: u32,
    region: Option<u32>,
    carried: &'r [Carried],
}

impl<'r> Model for Version<'r> {
    ghost Value = { lines.Version };

    ghost view = { λ v. record { function = v.function; globals = v.globals; region = v.region; carried = v.carried.now } };
}

impl<'r> Version<'r> {
    /// The version of a function that runs outside its regions.
    pub(crate) fn plain(function: u32, globals: u32) -> Version<'r>
        ensures { result ≡ plain_version function globals }
    {
        Version {
            function,
            globals,
            region: None,
            carried: &[],
        }
    }

    /// The version of a region with these cells.
    pub(crate) fn of_region<'c>(&self, region: u32, carried: &'c [Carried]) -> Version<'c>
        ensures { result ≡ record { function = self.now.function; globals = self.now.globals; region = Some region; carried = carried.now } }
    {
        Version {
            function: self.function,
            globals: self.globals,
            region: Some(region),
            carried,
        }
    }

    /// The word that reads a private word in this version.
    pub(crate) fn get_private(&self, private: u32) -> Result<Word, AllocError>
        ensures { OkIff result (IfSome (lines.cell_of self.now.carried private) (λ cell. self.now.globals + cell < 2 ^ 32)) (lines.get_private self.now private) }
    {
        match cell_of(self.carried, private) {
            None => Ok(Word::Priv(private)),
            Some(cell) => match self.globals.checked_add(cell) {
                Some(address) => Ok(Word::Glob(address)),
                None => Err(AllocError),
            },
        }
    }

    /// The word that writes a private word in this version.
    pub(crate) fn set_private(&self, private: u32) -> Result<Word, AllocError>
        ensures { OkIff result (IfSome (lines.cell_of self.now.carried private) (λ cell. self.now.globals + cell < 2 ^ 32)) (lines.set_private self.now private) }
    {
        match cell_of(self.carried, private) {
            None => Ok(Word::SetPriv(private)),
            Some(cell) => match self.globals.checked_add(cell) {
                Some(address) => Ok(Word::SetGlob(address)),
                None => Err(AllocError),
            },
        }
    }
}

/// The words of a program so far, each with its spot, and the functions and regions among them.
#[derive(Drop)]
pub struct Drafted {
    lines: Vec<Line>,
    functions: Vec<Func>,
    regions: Vec<Region>,
}

impl Model for Drafted {
    ghost use Rattle.std.specs.Prelude.{◌<◌, ◌^◌, vec_len};
    ghost use Rattle.hx_lowering.specs.Draft.{Draft};

    ghost Value = { Draft };

    ghost view = { λ d. record { lines = d.lines.items; functions = d.functions.items; regions = d.regions.items } };

    ghost invariant = { λ d. vec_len d.lines < 2 ^ 32 };
}

impl Drafted {
    ghost use Rattle.hx_lowering.specs.Draft.{no_draft};

    /// No words.
    pub(crate) fn new(alloc: Global) -> Drafted
        ensures { result ≡ no_draft }
    {
        Drafted {
            lines: Vec::new(alloc),
            functions: Vec::new(alloc),
            regions: Vec::new(alloc),
        }
    }

    /// How many words there are: the place of the next.
    pub(crate) fn place(&self) -> u32
        ensures place { result ≡ length self.now.lines }
    {
        self.lines.len() as u32
    }

    /// One operand more than so many, of which there are fewer than words.
    pub(crate) fn above(&self, height: u32) -> u32
        requires { height < length self.now.lines }
        ensures { result ≡ height + 1 }
    {
        let _place = self.place();
        height + 1
    }

    /// Puts a word behind the others, where a call holds so many operands.
    pub(crate) fn put(
        &mut self,
        version: &Version<'_>,
        height: u32,
        word: Word,
    ) -> Result<(), AllocError>
        ensures word { OnOk result (self.new ≡ with_lines self.old (lines.put version.now height word self.old.lines)) }
        ensures longer { OnOk result (length self.new.lines ≡ length self.old.lines + 1) }
    {
        if self.lines.len() >= u32::MAX as usize {
            return Err(AllocError);
        }
        let spot = Spot {
            function: version.function,
            region: version.region,
            height,
        };
        self.lines.push(Line { word, spot })?;
        Ok(())
    }

    /// How many regions there are: the number of the next.
    pub(crate) fn region_count(&self) -> Result<u32, AllocError>
        ensures { OkIff result (length self.now.regions < 2 ^ 32) (length self.now.regions) }
    {
        numbered(self.regions.len())
    }

    /// How many functions there are: the number of the next.
    pub(crate) fn function_count(&self) -> Result<u32, AllocError>
        ensures { OkIff result (length self.now.functions < 2 ^ 32) (length self.now.functions) }
    {
        numbered(self.functions.len())
    }

    /// Puts a region behind the others.
    pub(crate) fn put_region(&mut self, region: Region) -> Result<(), AllocError>
        ensures { OnOk result (self.new ≡ record self.old { regions = self.old.regions ++ region ∷ [] }) }
    {
        self.regions.push(region)?;
        Ok(())
    }

    /// The words alone.
    pub(crate) fn words(&self, alloc: Global) -> Result<Vec<Word>, AllocError>
        ensures words { IfOk result (λ words. words.items ≡ map (λ line. line.word) self.now.lines) }
        ensures few { IfOk result (λ words. length words.items < 2 ^ 32) }
    {
        self.lines.iter().map(|line| line.word).collect(alloc)
    }

    /// The spots of the words.
    pub(crate) fn spots(&self, alloc: Global) -> Result<Vec<Spot>, AllocError>
        ensures { IfOk result (λ spots. spots.items ≡ map (λ line. line.spot) self.now.lines) }
    {
        self.lines.iter().map(|line| line.spot).collect(alloc)
    }

    /// The functions and regions, without the words.
    pub(crate) fn into_tables(self) -> (Vec<Func>, Vec<Region>)
        ensures functions { result.0.items ≡ self.functions }
        ensures regions { result.1.items ≡ self.regions }
    {
        (self.functions, self.regions)
    }

    /// Puts a function behind the others.
    pub(crate) fn put_function(&mut self, function: Func) -> Result<(), AllocError>
        ensures { OnOk result (self.new ≡ record self.old { functions = self.old.functions ++ function ∷ [] }) }
    {
        self.functions.push(function)?;
        Ok(())
    }
}

fn numbered(count: usize) -> Result<u32, AllocError>
    ensures { OkIff result (count < 2 ^ 32) count }
{
    match u32::try_from(count) {
        Ok(number) => Ok(number),
        Err(_) => Err(AllocError),
    }
}

/// Private words and the cells that carry them, numbered from 0.
pub(crate) fn cells_of(alloc: Global, carried: &[u32]) -> Result<Vec<Carried>, AllocError>
    ensures { IfOk result (λ cells. cells.items ≡ cells_from carried.now 0) }
{
    let mut cells = Vec::new(alloc);
    let mut cell = 0u32;
    for private in carried {
        cells.push(Carried {
            private: *private,
            cell,
        })?;
        let Some(next) = cell.checked_add(1) else {
            return Err(AllocError);
        };
        cell = next;
    }
    Ok(cells)
}

/// The cell of a private word that is carried.
fn cell_of(carried: &[Carried], private: u32) -> Option<u32>
    ensures { result ≡ lines.cell_of carried.now private }
{
    for c in carried {
        if c.private == private {
            return Some(c.cell);
        }
    }
    None
}

/// The words of an array.
pub(crate) fn array_of(words: Words) -> Array
    ensures { result ≡ lines.array_of words }
{
    Array {
        base: words.base,
        length: words.length,
    }
}

/// The counter of a region, for its induction local.
pub(crate) fn counter_of(induct: Option<Induct>) -> Option<table::Induct>
    ensures { result ≡ option_map counter_of induct }
{
    match induct {
        Some(induct) => Some(table::Induct {
            private: induct.private,
            step: induct.step,
        }),
        None => None,
    }
}
