ghost use Rattle.std.specs.Prelude.{◌≡◌, ◌≤◌, ◌∷◌, ◌++◌, IfOk, OnOk, map};
ghost use Rattle.every_wiring.specs.Lists.{pins_of};
ghost use Rattle.every_wiring.specs.Wirings.{longer_by, longer_to, wirings_to};

use crate::agreement::agree;
use std::alloc::{AllocError, Global};

fn with_first(alloc: Global, pin: u8, pins: &[u8]) -> Result<Vec<u8>, AllocError>
    ensures { IfOk result (λ longer. longer.items ≡ pin ∷ pins.now) }
{
    let mut longer = Vec::new(alloc);
    longer.push(pin)?;
    longer.extend_from_slice(pins)?;
    Ok(longer)
}

// Puts the pin before those of the lists that do not have it.
fn push_longer(
    alloc: Global,
    longer: &mut Vec<Vec<u8>>,
    lists: &[Vec<u8>],
    pin: u8,
) -> Result<(), AllocError>
    ensures { OnOk result
        (pins_of longer.new.items ≡ pins_of longer.old.items ++ longer_by (pins_of lists.now) pin) }
{
    for pins in lists {
        if !pins.contains(&pin) {
            longer.push(with_first(alloc, pin, pins.as_slice())?)?;
        }
    }
    Ok(())
}

// Every wiring of this many inputs, in dictionary order.
fn every_wiring(alloc: Global, inputs: u8) -> Result<Vec<Vec<u8>>, AllocError>
    ensures { IfOk result (λ lists. pins_of lists.items ≡ wirings_to inputs) }
{
    let mut lists = Vec::new(alloc);
    lists.push(Vec::new(alloc))?;
    for _placed in 0..inputs {
        let mut longer = Vec::new(alloc);
        for pin in 0..inputs {
            push_longer(alloc, &mut longer, lists.as_slice(), pin)?;
        }
        lists = longer;
    }
    Ok(lists)
}

/// Every wiring of some number of inputs and no other, in dictionary order. A wiring is the list of its pins.
#[derive(Drop)]
pub struct Wirings {
    pub inputs: u8,
    pub list: Vec<Vec<u8>>,
    ghost few: { inputs ≤ 6 },
    ghost listed: { pins_of list.items ≡ wirings_to inputs },
}

impl Wirings {
    ghost use Rattle.every_wiring.specs.Agreement.{Agrees};
    ghost use Rattle.every_wiring.specs.Wirings.{AreAll, IsWiring};

    /// Lists every wiring.
    pub fn new(alloc: Global, inputs: u8) -> Result<Wirings, AllocError>
        requires { inputs ≤ 6 }
        ensures { IfOk result (λ wirings. AreAll (IsWiring inputs) (pins_of wirings.list.items)) }
    {
        let list = every_wiring(alloc, inputs)?;
        Ok(Wirings { inputs, list })
    }

    /// The wirings under which card and part agree, in dictionary order: the first of them is the first of all.
    pub fn agreeing(
        &self,
        alloc: Global,
        card: &[u16],
        part: &[u16],
    ) -> Result<Vec<&[u8]>, AllocError>
        ensures { IfOk result (λ agreeing.
            AreAll (λ pins. IsWiring self.now.inputs pins × Agrees card.now part.now pins) (map (λ pins. pins.now) agreeing.items)) }
    {
        let mut agreeing = Vec::new(alloc);
        for pins in self.list.as_slice() {
            if agree(card, part, pins.as_slice()) {
                agreeing.push(pins.as_slice())?;
            }
        }
        Ok(agreeing)
    }
}
