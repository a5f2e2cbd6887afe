// The program `rule`, from the input's bytes to the output's bytes.
ghost use Rattle.definitions.specs.OneLine.{line_output, typed_output, rule_output};
ghost use Rattle.line_programs.specs.Printing.{Prints, Written};

use super::input::only_line;
use super::print::or_refusal;
use fields::number;
use lines::scan;
use one_line::read_line;
use rule_writer::write_rule;
use rules::limits::Limits;
use rules::refusal::Refusal;
use rules::rule::Rule;

// The text of the rule.
fn write_line(
    controller: usize,
    line: &[u8],
    output: &mut [u8; Limits::RULE_BYTES],
) -> Result<usize, Refusal>
    ensures { Written (line_output controller line.now) result output.new }
{
    let mut nodes = [0u32; Limits::RULE_NODES];
    let heading = read_line(controller, line, &mut nodes)?;
    let rule = Rule {
        controller: heading.controller,
        count: heading.count,
        nodes: &nodes,
    };
    write_rule(rule, output)
}

// A controller, a tab, and the rule.
fn write_typed(line: &[u8], output: &mut [u8; Limits::RULE_BYTES]) -> Result<usize, Refusal>
    ensures { Written (typed_output line.now) result output.new }
{
    let (field, rule) = scan::split(line, scan::TAB).ok_or(Refusal::RuleForm)?;
    let controller = number::decimal(field).ok_or(Refusal::RuleForm)?;
    write_line(controller as usize, rule, output)
}

fn write_input(input: &[u8], output: &mut [u8; Limits::RULE_BYTES]) -> Result<usize, Refusal>
    ensures { Written (rule_output input.now) result output.new }
{
    let line = only_line(input).map_err(|refused| refused.refusal)?;
    write_typed(line, output)
}

// From the input to what is printed of it, and how many bytes that is; the rest of the output is zero.
pub fn print_rule(input: &[u8], output: &mut [u8; Limits::RULE_BYTES]) -> usize
    ensures { Prints (rule_output input.now) result output.new }
{
    or_refusal(write_input(input, output), output)
}
