ghost use Rattle.std.specs.Prelude.{◌≡◌, map, slice_index_or};
ghost use Rattle.path_encoding.specs.Spots as spec;
ghost use Rattle.ir_pieces.specs.Choice.{operand_at};
ghost use Rattle.value_pieces.specs.Sources.{source_literal, operand_from, AreConstants};

use bit_rows::BitOperand;
use ir_constants::Constants;
use ll_links::Source;
use path_encoding::PathSpots;
use wrap_rows::ValueVars;

/// Number and mark of what an operand stands for. It takes no memory and constant time.
pub fn source_vars(spots: &PathSpots, constants: &Constants, source: Source) -> ValueVars
    requires { AreConstants constants.now spots.now }
    ensures { result ≡ spec.source_vars spots.now source }
{
    match source {
        Source::Value(id) => vars_at(spots.values.as_slice(), id.0),
        Source::Const(number) => ValueVars {
            number: constants.var_of(number),
            mark: 0,
        },
        Source::Poison => ValueVars { number: 0, mark: 1 },
    }
}

fn vars_at(values: &[ValueVars], at: u32) -> ValueVars
    ensures { result ≡ slice_index_or values.now at (spec.value_vars 0 0) }
{
    match values.get(at as usize) {
        Some(vars) => *vars,
        None => ValueVars { number: 0, mark: 0 },
    }
}

fn literal_of(source: Source) -> Option<u32>
    ensures { result ≡ source_literal source }
{
    match source {
        Source::Value(_) => None,
        Source::Const(number) => Some(number),
        Source::Poison => Some(0),
    }
}

/// One of some operands, by its variables and, where it is written, its number.
pub fn operand_of(
    spots: &PathSpots,
    constants: &Constants,
    sources: &[Source],
    at: usize,
) -> BitOperand
    requires { AreConstants constants.now spots.now }
    ensures { result ≡ operand_at (map (operand_from spots.now) sources.now) at }
{
    match sources.get(at) {
        Some(source) => BitOperand {
            vars: source_vars(spots, constants, *source),
            literal: literal_of(*source),
        },
        None => BitOperand {
            vars: ValueVars { number: 0, mark: 0 },
            literal: None,
        },
    }
}
