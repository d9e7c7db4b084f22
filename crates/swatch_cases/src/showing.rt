// Compiles a table, runs its tape, and prints what both answer. An output of 1,024 records is more than any case needs.
use machine::Ran;
use std::io;

// A table, what its tape is run on, and the limit of its steps.
#[derive(Drop)]
pub struct Case<'a> {
    name: &'a str,
    table: &'a [u32],
    arguments: &'a [u32],
    memory: &'a mut [u8],
    limit: u32,
}

impl<'a> Case<'a> {
    // No arguments, no memory, and as many steps as can be asked for.
    pub fn new(name: &'a str, table: &'a [u32]) -> Self {
        Case {
            name,
            table,
            arguments: &[],
            memory: &mut [],
            limit: u32::MAX,
        }
    }

    pub fn arguments(self, arguments: &'a [u32]) -> Self {
        Case { arguments, ..self }
    }

    pub fn memory(self, memory: &'a mut [u8]) -> Self {
        Case { memory, ..self }
    }

    pub fn limit(self, limit: u32) -> Self {
        Case { limit, ..self }
    }

    // The records that were written are the tape.
    pub fn show(self, rt: &impl Print) -> io::Result<()> {
        let name = self.name;
        let memory = self.memory;
        let mut out = [0u32; 4096];
        print!(rt; "{name}")?;
        // A refusal is handed on by name, since a `?` here is printing's. Only this program prints a run, as the end of its line: there is no Display for it.
        let answer = match compiler::compile(self.table, &mut out) {
            Ok(tape) => {
                let tape = &out[..4 * tape.records.min(out.len() / 4)];
                let records = tape.len() / 4;
                print!(rt; ": {records} records")?;
                machine::run(tape, self.arguments, memory, self.limit)
            }
            Err(refusal) => Err(refusal),
        };
        match answer {
            Ok(Ran::Done { value, steps }) => println!(rt; ", value {value} in {steps} steps"),
            Ok(Ran::Stopped { steps, record }) => {
                println!(rt; ", stopped after {steps} steps at record {record}")
            }
            Err(refusal) => println!(rt;
                ": refused {} at record {}",
                refusal.number, refusal.place
            ),
        }
    }
}
