ghost use Rattle.std.specs.Prelude.{IfErr};
ghost use Rattle.rebuild.specs.Stocking.{NoMeans};

use crate::failure::Failure;
use crate::job::{Job, Stocked};
use crate::printing::show_repair;
use rows::{Direction, Drive, OnOff};
use tables::Table;

const F: OnOff = OnOff::Off;

const T: OnOff = OnOff::On;

const REST: Drive = Drive {
    direction: Direction::Rest,
    hold: 0,
};

const LONG_REST: Drive = Drive {
    direction: Direction::Rest,
    hold: 40,
};

const LEFT: Drive = Drive {
    direction: Direction::Left,
    hold: 5,
};

const RIGHT: Drive = Drive {
    direction: Direction::Right,
    hold: 12,
};

/// A card of three inputs, two of which may be exchanged. The sample is wired wrong at first.
pub fn repair_of_on_off(rt: &HostRuntime) -> Result<(), Failure>
    ensures { IfErr result NoMeans }
{
    let small = Table {
        inputs: 2,
        rows: &[F, T, T, F],
    };
    let near_miss = Table {
        inputs: 3,
        rows: &[F, F, F, T, F, T, T, T],
    };
    let fitting = Table {
        inputs: 3,
        rows: &[F, T, F, T, F, T, T, F],
    };
    let stock = [
        Stocked {
            number: 7,
            table: small,
        },
        Stocked {
            number: 31,
            table: fitting,
        },
        Stocked {
            number: 12,
            table: near_miss,
        },
    ];
    let card = Table {
        inputs: 3,
        rows: &[F, F, F, T, T, T, T, F],
    };
    let job = Job {
        card,
        stock: &stock,
        readings: &[F, F, T, T, F, T, T, F],
        mending: true,
    };
    show_repair(rt, &job)
}

// The repair of a card whose rows are drives, from two parts.
fn show_drives<'a>(
    rt: &HostRuntime,
    card: &'a [Drive; 4],
    near_miss: &'a [Drive; 4],
    fitting: &'a [Drive; 4],
    readings: &'a [Drive; 4],
) -> Result<(), Failure>
    ensures { IfErr result NoMeans }
{
    let near_miss = Table {
        inputs: 2,
        rows: near_miss,
    };
    let fitting = Table {
        inputs: 2,
        rows: fitting,
    };
    let stock = [
        Stocked {
            number: 204,
            table: near_miss,
        },
        Stocked {
            number: 117,
            table: fitting,
        },
    ];
    let card = Table {
        inputs: 2,
        rows: card,
    };
    let job = Job {
        card,
        stock: &stock,
        readings,
        mending: true,
    };
    show_repair(rt, &job)
}

/// A card whose rows are drives. Rests are the same whatever their holds.
pub fn repair_of_drives(rt: &HostRuntime) -> Result<(), Failure>
    ensures { IfErr result NoMeans }
{
    let card = [REST, LONG_REST, LEFT, RIGHT];
    let near_miss = [REST, LEFT, RIGHT, LEFT];
    let fitting = [LONG_REST, LEFT, LONG_REST, RIGHT];
    let readings = [REST, REST, LEFT, LEFT];
    show_drives(rt, &card, &near_miss, &fitting, &readings)
}
