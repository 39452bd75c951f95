//! Strangers' images whose defaults lead from state to state: up and down in a chain, in a circle, into a circle, in pairs, and each
//! to itself. No state has a depth: for one byte a default is followed once, however the defaults go on from there.
use std::alloc::Global;
use std::process::Abort;
use std::test::Fail;
use table_batches::{are_offsets, run_names, run_names_by_image};
use table_image::from_bytes;
use table_verifier::{
    LookUps, State, Steps, VerifiedImage, VerifiedTable, run, run_image, verify, verify_image,
};

// How the defaults of the states follow one another.
#[derive(Clone, Copy, Debug)]
enum Shape {
    Up,
    Down,
    Circle,
    // The states from 2 on down to a circle of 1 and 2.
    IntoCircle,
    Pairs,
    Itself,
}

const SHAPES: [Shape; 6] = [
    Shape::Up,
    Shape::Down,
    Shape::Circle,
    Shape::IntoCircle,
    Shape::Pairs,
    Shape::Itself,
];

// Who owns the cells of even bytes, in the row that all states share. They lead to the last state.
#[derive(Clone, Copy, Debug)]
enum Owner {
    Nobody,
    One,
}

// What an image is made from.
#[derive(Clone, Copy, Debug)]
struct Plan {
    shape: Shape,
    owner: Owner,
    states: u32,
}

impl Plan {
    fn last(self) -> u32 {
        self.states.saturating_sub(1)
    }

    fn default_of(self, state: u32) -> u32 {
        let up = state.saturating_add(1);
        let down = state.saturating_sub(1);
        let target = match self.shape {
            Shape::Up => up,
            Shape::Down => down,
            Shape::Circle if state == self.last() => 0,
            Shape::Circle => up,
            Shape::IntoCircle if state < 2 => up,
            Shape::IntoCircle => down,
            Shape::Pairs => state ^ 1,
            Shape::Itself => state,
        };
        target.min(self.last())
    }

    fn check_of(self, byte: u32) -> u32 {
        match self.owner {
            Owner::One if byte % 2 == 0 => 1,
            Owner::One | Owner::Nobody => u32::MAX,
        }
    }

    // The state that a name leads to from state 1.
    fn state_after(self, name: &[u8]) -> State {
        let mut state = 1;
        for byte in name {
            state = if self.check_of(u32::from(*byte)) == state {
                self.last()
            } else {
                self.default_of(state)
            };
        }
        state
    }

    // The image: 256 cells, and a record of no hits.
    fn image(self, alloc: Global) -> Result<Vec<u8>, Fail> {
        let mut image = b"PTAB\x01\0\0\0".to_vec(alloc)?;
        for count in [self.states, 256, 1] {
            push(&mut image, count)?;
        }
        for state in 0..self.states {
            push(&mut image, self.default_of(state))?;
        }
        // All bases, and the accepts.
        for _ in 0..2 * u64::from(self.states) {
            push(&mut image, 0)?;
        }
        for _ in 0..256 {
            push(&mut image, self.last())?;
        }
        for byte in 0..256 {
            push(&mut image, self.check_of(byte))?;
        }
        image.extend_from_slice(&[0; 20])?;
        Ok(image)
    }
}

fn push(image: &mut Vec<u8>, number: u32) -> Result<(), Fail> {
    image.extend_from_slice(&number.to_le_bytes())?;
    Ok(())
}

// All bytes in turn, and some of them next to others: as many as a name may have.
fn long_name(alloc: Global) -> Result<Vec<u8>, Fail> {
    let mut name = Vec::new(alloc);
    for place in 0..4_095u32 {
        name.push(((place ^ place / 256) % 256) as u8)?;
    }
    Ok(name)
}

// A name leads through the table and through the image to the state that it leads to by hand, in as many steps and look-ups as it
// has bytes.
fn expect_state(
    rt: &impl Abort,
    table: &VerifiedTable,
    image: &VerifiedImage<'_>,
    name: &[u8],
    want: State,
) {
    let want = (want, name.len() as u64, name.len() as u128);
    assert_eq!(rt; (table.depth_bound(), image.depth_bound()), (0, 0));
    let (mut steps, mut lookups) = (Steps::new(), LookUps::new());
    let found = run(table, name, &mut steps, &mut lookups);
    assert_eq!(rt; (found, steps.count(), lookups.count()), want);
    let (mut steps, mut lookups) = (Steps::new(), LookUps::new());
    let found = run_image(image, name, &mut steps, &mut lookups);
    assert_eq!(rt; (found, steps.count(), lookups.count()), want);
}

// The same of three names side by side: the two parts of a text, and one of no bytes.
fn expect_states(
    rt: &impl Abort,
    table: &VerifiedTable,
    image: &VerifiedImage<'_>,
    text: &[u8],
    want: [State; 3],
) {
    let offsets = [0, text.len() / 3, text.len(), text.len()];
    let want = (want, text.len() as u64, text.len() as u128);
    assert_eq!(rt; (table.depth_bound(), image.depth_bound()), (0, 0));
    let mut states = [9; 3];
    assert!(rt; are_offsets(text, &offsets, states.len()));
    let (mut steps, mut lookups) = (Steps::new(), LookUps::new());
    run_names(table, text, &offsets, &mut states, &mut steps, &mut lookups);
    assert_eq!(rt; (states, steps.count(), lookups.count()), want);
    let mut states = [9; 3];
    assert!(rt; are_offsets(text, &offsets, states.len()));
    let (mut steps, mut lookups) = (Steps::new(), LookUps::new());
    run_names_by_image(image, text, &offsets, &mut states, &mut steps, &mut lookups);
    assert_eq!(rt; (states, steps.count(), lookups.count()), want);
}

// The image is accepted, and names of several lengths run through it.
fn expect_runs(rt: &impl Abort, alloc: Global, plan: Plan, text: &[u8]) -> Result<(), Fail> {
    let bytes = plan.image(alloc)?;
    let Ok(table) = verify(from_bytes(alloc, &bytes)?) else {
        return Err(Fail::from("a refused table"));
    };
    let image = verify_image(&bytes)?;
    for length in [0, 1, 2, 3, 4, 63, 64, 65, 255, 256, 4_095] {
        let name = text.get(..length).ok_or("a longer name")?;
        expect_state(rt, &table, &image, name, plan.state_after(name));
    }
    let (first, second) = text.split_at(text.len() / 3);
    let want = [plan.state_after(first), plan.state_after(second), 1];
    expect_states(rt, &table, &image, text, want);
    Ok(())
}

#[test]
fn images_of_strangers_with_chains_of_defaults(rt: HostRuntime) -> Result<(), Fail> {
    let alloc = rt.alloc();
    let text = long_name(alloc)?;
    for shape in SHAPES {
        for owner in [Owner::Nobody, Owner::One] {
            for states in [2, 3, 4, 5, 64, 1_000] {
                let plan = Plan {
                    shape,
                    owner,
                    states,
                };
                expect_runs(&rt, alloc, plan, &text)?;
            }
        }
    }
    Ok(())
}
