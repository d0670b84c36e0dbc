use session_threads::{StallPoint, Stalls};
use std::sync::{Condvar, Mutex, Wait};

// How far two sessions have come.
#[derive(Drop)]
pub struct Stage {
    // The first one is logged in.
    first_is_in: bool,
    // The second one is over.
    second_is_over: bool,
}

// The second session begins once the first is logged in, and that one goes on once the second is over. So both are open at a time.
#[derive(Drop)]
pub struct Crossing {
    stage: Mutex<Stage>,
    moved: Condvar,
}

impl Crossing {
    pub fn new() -> Crossing {
        Crossing {
            stage: Mutex::new(Stage {
                first_is_in: false,
                second_is_over: false,
            }),
            moved: Condvar::new(),
        }
    }

    fn first_comes_in<W: Wait>(&self, rt: &W) {
        self.stage.lock(rt).first_is_in = true;
        self.moved.notify_all();
        drop(
            self.moved
                .wait_while(rt, self.stage.lock(rt), |stage| !stage.second_is_over),
        );
    }

    fn second_starts<W: Wait>(&self, rt: &W) {
        drop(
            self.moved
                .wait_while(rt, self.stage.lock(rt), |stage| !stage.first_is_in),
        );
    }

    fn second_ends<W: Wait>(&self, rt: &W) {
        self.stage.lock(rt).second_is_over = true;
        self.moved.notify_all();
    }
}

impl Stalls for Crossing {
    fn at<W: Wait>(&self, rt: &W, line: u32, point: StallPoint) {
        match (line, point) {
            (0, StallPoint::LoggedIn) => self.first_comes_in(rt),
            (1, StallPoint::Start) => self.second_starts(rt),
            (1, StallPoint::End) => self.second_ends(rt),
            (_, _) => {}
        }
    }
}
