// Two texts of one input, read into tables: what every program does before it judges.
ghost use Rattle.report.specs.ReadTables.{Within, ReadIs, TextsRoom, TextsRead};

use super::put_refused;
use joint_reading::join;
use joint_reading::scan::Joined;
use recordings::heading::Recording;
use rules::limits::Limits;
use rules::rule::Rule;

// Space for the tables of two texts.
#[derive(Drop)]
pub struct Tables {
    pub nodes: [u32; Limits::RULE_NODES],
    pub masks: [u32; Limits::CONTROLLERS],
    pub states: [u64; Limits::STATES],
}

// The tables that two texts are read as.
#[derive(Clone, Copy)]
pub struct Read<'a> {
    pub rule: Rule<'a>,
    pub recording: Recording<'a>,
}

impl Tables {
    pub fn new() -> Tables {
        Tables {
            nodes: [0; Limits::RULE_NODES],
            masks: [0; Limits::CONTROLLERS],
            states: [0; Limits::STATES],
        }
    }

    // What stands at the front of the space, by its headings.
    fn read(&self, joined: Joined) -> Read<'_>
        requires { Within joined }
        ensures { ReadIs joined self.now result }
    {
        let count = joined.rule.count;
        let controllers = joined.recording.controllers;
        let states = joined.recording.count;
        Read {
            rule: Rule {
                controller: joined.rule.controller,
                count,
                nodes: &self.nodes[..count],
            },
            recording: Recording {
                controllers,
                count: states,
                masks: &self.masks[..controllers],
                states: &self.states[..states],
            },
        }
    }
}

// Reads both texts. A refusal's number and line are printed, and so many bytes are answered; of accepted tables nothing is printed.
pub fn read_tables<'a>(
    rule: &[u8],
    recording: &[u8],
    tables: &'a mut Tables,
    text: &mut [u8],
) -> Result<Read<'a>, usize>
    requires { TextsRoom rule.now recording.now text.old }
    ensures { TextsRead rule.now recording.now text.old result text.new }
{
    let found = join(
        rule,
        recording,
        &mut tables.nodes,
        &mut tables.masks,
        &mut tables.states,
    );
    match found.read {
        Ok(joined) => Ok(tables.read(joined)),
        Err(refusal) => {
            let printed = put_refused(refusal, found.part(rule, recording), text);
            Err(printed)
        }
    }
}
