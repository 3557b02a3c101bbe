// Pieces of a stream that are absorbed in any order and grouping, against one run over all of them.
ghost use Rattle.std.specs.Prelude.{◌≡◌, ◌^◌, ◌<◌, ◌≤◌, true, nat_abs, length};

use crate::facts::expect;
use sip_field::{Field, M61, Seat};
use sip_mle::Point;
use sip_tree::{AugRoot, Root, SplitRoot};
use sip_vector::{CAP, Depth};

// How many pieces a stream has.
const PIECES: u64 = 1000;

// More than all of them weigh.
const MANY: u64 = 1 << 20;

// What is kept of a stream in each of the four ways, for the same challenges.
#[derive(Drop)]
struct Kept {
    root: Root<M61, CAP>,
    point: Point<M61, CAP>,
    augmented: AugRoot<M61, CAP>,
    split: SplitRoot<M61, CAP>,
    ghost point_seat: { point.seat ≡ root.seat },
    ghost augmented_seat: { augmented.seat ≡ root.seat },
    ghost split_seat: { split.seat ≡ root.seat },
}

impl Kept {
    fn new(seat: &Seat<M61, CAP>) -> Kept
        ensures { result.root.seat ≡ seat.now }
    {
        Kept {
            root: Root::new(seat.clone().unwrap()),
            point: Point::new(seat.clone().unwrap()),
            augmented: AugRoot::new(seat.clone().unwrap()),
            split: SplitRoot::new(seat.clone().unwrap()),
        }
    }

    fn has_room(&self) -> bool
        ensures weight { result ≡ true → self.now.split.weight ≤ 1048576 }
        ensures total { result ≡ true → nat_abs self.now.augmented.total ≤ 1048576 }
    {
        self.split.weight() <= MANY && self.augmented.total().unsigned_abs() <= MANY
    }

    fn update(&mut self, index: u64, delta: i64)
        requires index { index < 2 ^ length self.old.root.seat }
        requires delta { nat_abs delta ≤ 8 }
        ensures { self.new.root.seat ≡ self.old.root.seat }
    {
        if self.has_room() {
            self.root.update(index, delta);
            self.point.update(index, delta);
            self.augmented.update(index, delta);
            self.split.update(index, delta);
        }
    }

    fn absorb(&mut self, other: &Kept)
        requires { other.now.root.seat ≡ self.old.root.seat }
        ensures { self.new.root.seat ≡ self.old.root.seat }
    {
        if self.has_room() && other.has_room() {
            self.root.absorb(&other.root);
            self.point.absorb(&other.point);
            self.augmented.absorb(&other.augmented);
            self.split.absorb(&other.split);
        }
    }

    // The root, the extension, the augmented root and the split root.
    fn is(&self, root: u64, point: u64, augmented: (u64, i64), split: (u64, u64)) -> bool {
        self.root.value().number() == root
            && self.point.value().number() == point
            && (self.augmented.hash().number(), self.augmented.total()) == augmented
            && (self.split.hash().number(), self.split.weight()) == split
    }

    fn equals(&self, other: &Kept) -> bool {
        self.is(
            other.root.value,
            other.point.value,
            (other.augmented.hash, other.augmented.total),
            (other.split.hash, other.split.weight),
        )
    }
}

fn two_and_ten() -> Seat<M61, CAP>
    ensures { length result ≡ 2 }
{
    Seat::of(&[M61::of(2), M61::of(10)]).unwrap()
}

#[test]
fn two_pieces_add_up(rt: HostRuntime) {
    let seat = two_and_ten();
    let mut front = Kept::new(&seat);
    front.update(0, 3);
    front.update(2, 5);
    let mut rest = Kept::new(&seat);
    rest.update(3, 1);
    let parts = [
        front.is(53, M61::MODULUS - 23, (6539, 8), (6539, 8)),
        rest.is(20, 20, (2200, 1), (2200, 1)),
    ];
    expect(&rt, 0, &parts);
    front.absorb(&rest);
    expect(
        &rt,
        1,
        &[front.is(73, M61::MODULUS - 3, (8739, 9), (8739, 9))],
    );
}

#[test]
fn a_split_root_counts_what_was_taken_away(rt: HostRuntime) {
    let mut root = SplitRoot::new(two_and_ten());
    root.update(1, 5);
    root.update(2, -9);
    root.update(3, 4);
    root.update(3, -1);
    expect(
        &rt,
        0,
        &[(root.hash().number(), root.weight()) == (20210, 19)],
    );
}

// The linear congruential generator modulo 2^64 of Knuth's MMIX: Knuth, The Art of Computer
// Programming, volume 2, section 3.3.4.
fn next(state: u64) -> u64 {
    state
        .wrapping_mul(6_364_136_223_846_793_005)
        .wrapping_add(1_442_695_040_888_963_407)
}

fn seat(depth: Depth) -> Seat<M61, CAP>
    ensures { length result ≡ depth }
{
    let mut state = 2;
    let mut challenges = [M61::of(0); CAP];
    for challenge in &mut challenges {
        state = next(state);
        *challenge = M61::of(state);
    }
    Seat::of(&challenges[..usize::from(depth.get())]).unwrap()
}

// Adds the updates of a piece, 3 of them, of which about half take away.
fn add_piece(kept: &mut Kept, depth: Depth, number: u64)
    requires { length kept.old.root.seat ≡ depth }
    ensures { kept.new.root.seat ≡ kept.old.root.seat }
{
    let mut state = next(number);
    for _ in 0..3 {
        state = next(state);
        let size = 1 + (state >> 12) as i64 % 8;
        let delta = if state >> 63 == 0 { size } else { -size };
        kept.update((state >> 15) % (1 << depth.get()), delta);
    }
}

// Whether pieces in another order, absorbed to the left or to the right and in groups, give what
// one run over all of them gives.
fn pieces_add_up(depth: Depth) -> bool {
    let seat = seat(depth);
    let mut once = Kept::new(&seat);
    let mut whole = Kept::new(&seat);
    let mut group = Kept::new(&seat);
    let mut state = 3;
    for number in 0..PIECES {
        add_piece(&mut once, depth, number);
        let mut piece = Kept::new(&seat);
        add_piece(&mut piece, depth, number * 617 % PIECES);
        state = next(state);
        if state >> 63 == 0 {
            group.absorb(&piece);
        } else {
            piece.absorb(&group);
            group = piece;
        }
        if (state >> 60) % 4 == 0 {
            group.absorb(&whole);
            whole = group;
            group = Kept::new(&seat);
        }
    }
    whole.absorb(&group);
    whole.equals(&once)
}

#[test]
fn pieces_add_up_in_any_order_and_grouping(rt: HostRuntime) {
    for (row, depth) in [1, 20, 48].iter().enumerate() {
        expect(&rt, row, &[pieces_add_up(Depth::new(*depth).unwrap())]);
    }
}
