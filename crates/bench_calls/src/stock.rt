use anyhow::{Result, bail};
use refusals::Refusal;
use rows::OnOff;
use shelf_forms::Form;
use std::alloc::Global;
use std::io::{BufRead, BufReader};
use tables::Table;
use typed_rows::copy_rows;

/// The rows of a table, and its number of inputs.
#[derive(Drop)]
pub struct TableRows {
    pub inputs: usize,
    pub rows: Vec<OnOff>,
}

impl TableRows {
    fn of(heap: Global, inputs: usize, digits: &[u8]) -> Result<TableRows> {
        let mut rows = vec![in heap; OnOff::Off; digits.len()]?;
        copy_rows(digits, rows.as_mut_slice()).ok_or(Refusal::NotAForm)?;
        Table::check(inputs, rows.as_slice())?;
        Ok(TableRows { inputs, rows })
    }

    /// The table that the rows are.
    pub fn table(&self) -> Result<Table<'_, OnOff>, Refusal> {
        Table::new(self.inputs, self.rows.as_slice())
    }
}

/// The parts, with their numbers, and the cards of a file of lines.
#[derive(Drop)]
pub struct Stock {
    pub numbers: Vec<u32>,
    pub parts: Vec<TableRows>,
    pub cards: Vec<TableRows>,
}

impl Stock {
    fn add(&mut self, heap: Global, line: &[u8]) -> Result<()> {
        match Form::read(line).ok_or(Refusal::NotAForm)? {
            Form::Part {
                number,
                inputs,
                rows,
            } => {
                self.parts.push(TableRows::of(heap, inputs, rows)?)?;
                self.numbers.push(number)?;
            }
            Form::Card { inputs, rows } => self.cards.push(TableRows::of(heap, inputs, rows)?)?,
            Form::Drop { .. } => {}
        }
        Ok(())
    }

    /// The tables of standard input.
    pub fn read(rt: &HostRuntime) -> Result<Stock> {
        let heap = rt.alloc();
        let mut stock = Stock {
            numbers: Vec::new(heap),
            parts: Vec::new(heap),
            cards: Vec::new(heap),
        };
        for (k, line) in BufReader::new(heap, rt.reader())?.lines(heap).enumerate() {
            let mut line = line?;
            line.push('\n')?;
            if let Err(error) = stock.add(heap, line.as_bytes()) {
                bail!("line {}: {error}", k + 1);
            }
        }
        Ok(stock)
    }
}
