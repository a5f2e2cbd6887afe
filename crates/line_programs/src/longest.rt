// The program `longest`, from the input's bytes to the output's bytes.
ghost use Rattle.definitions.specs.Longest.{count_output, longest_output};
ghost use Rattle.line_programs.specs.Printing.{Prints, Written};

use super::input::only_line;
use super::print::or_refusal;
use fields::number;
use rule_writer::write_rule;
use rules::kind::Kind;
use rules::limits::Limits;
use rules::node::Node;
use rules::refusal::Refusal;
use rules::rule::Rule;

// The rule of so many nodes: `atom 0`, and then `until 0 0` each time.
fn write_count(line: &[u8], output: &mut [u8; Limits::RULE_BYTES]) -> Result<usize, Refusal>
    ensures { Written (count_output line.now) result output.new }
{
    let count = number::decimal(line).ok_or(Refusal::RuleForm)?;
    let until = Node::new(Kind::Until, 0, 0).word();
    let mut nodes = [until; Limits::RULE_NODES];
    nodes[0] = Node::new(Kind::Atom, 0, 0).word();
    let rule = Rule {
        controller: 0,
        count: count as usize,
        nodes: &nodes,
    };
    write_rule(rule, output)
}

fn write_input(input: &[u8], output: &mut [u8; Limits::RULE_BYTES]) -> Result<usize, Refusal>
    ensures { Written (longest_output input.now) result output.new }
{
    let line = only_line(input).map_err(|refused| refused.refusal)?;
    write_count(line, output)
}

// From the input to what is printed of it, and how many bytes that is; the rest of the output is zero.
pub fn print_longest(input: &[u8], output: &mut [u8; Limits::RULE_BYTES]) -> usize
    ensures { Prints (longest_output input.now) result output.new }
{
    or_refusal(write_input(input, output), output)
}
