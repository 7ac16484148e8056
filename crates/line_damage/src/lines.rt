use draws::Random;
use std::alloc::{AllocError, Global};

/// Lines to be damaged. The first four enter the parts of the shelf; the first nine leave it as it is once it has them.
pub const LINES: [&str; 11] = [
    "(part 13 (pins 3) (rows 00110101))\n",
    "(part 7 (pins 0) (rows 1))\n",
    "(part 12 (pins 3) (rows 00011011))\n",
    "(part 1024 (pins 5) (rows 00000000000000010000000000010111))\n",
    "(card (pins 0) (rows 1))\n",
    "(card (pins 3) (rows 00110101))\n",
    "(card (pins 5) (rows 00000000000000010000000000010111))\n",
    "(part 5000 (pins 0) (rows 1))\n",
    "(drop 5000)\n",
    "(part 10000 (pins 2) (rows 0110))\n",
    "(drop 7)\n",
];

/// One of the lines, damaged once or twice: another byte, another digit, no byte or the byte twice at a place that is drawn,
/// or from there on the end of another line.
pub fn damaged_line(alloc: Global, random: &mut Random) -> Result<Vec<u8>, AllocError> {
    let mut line = Vec::from_slice(alloc, LINES[random.below(11)].as_bytes())?;
    for _ in 0..=random.below(3) / 2 {
        if line.is_empty() {
            break;
        }
        let place = random.below(line.len());
        match random.below(5) {
            0 => line[place] = random.below(256) as u8,
            1 => line[place] = b'0' + random.below(2) as u8,
            2 => _ = line.remove(place),
            3 => line.insert(place, line[place])?,
            _ => {
                let other = LINES[random.below(11)].as_bytes();
                line.truncate(place);
                line.extend_from_slice(&other[random.below(other.len() + 1)..])?;
            }
        }
    }
    Ok(line)
}
