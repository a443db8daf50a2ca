// The workers of a station, and what each has of its own.

ghost use Rattle.std.specs.Prelude.{◌≡◌, ◌<◌, IfOk};
ghost use Rattle.hx_board.specs.Calls.{IsOwnFrame};

use crate::gate::Gate;
use crate::run::Run;
use crate::station::{Station, serve};
use hx_frame::Frame;
use std::alloc::{AllocError, Global};
use std::marker::PhantomData;
use std::sync::Wait;

/// A worker of a station with a frame of its own.
#[derive(Drop)]
pub struct Seat<'c, R: Run> {
    worker: u32,
    frame: Frame<'c>,
    run: PhantomData<R>,
    ghost own_worker: { worker < R.setup.slots },
    ghost own_frame: { IsOwnFrame R.setup frame },
}

impl<'c, R: Run> Seat<'c, R> {
    /// A seat for this worker. It is refused for want of memory alone.
    pub fn new(
        alloc: Global,
        station: &Station<'c, R>,
        worker: u32,
    ) -> Result<Seat<'c, R>, AllocError>
        requires { worker < R.setup.slots }
    {
        let frame = station.frame(alloc)?;
        Ok(Seat {
            worker,
            frame,
            run: PhantomData,
        })
    }

    /// Works on each region that opens, until the station is closed.
    pub fn serve<W: Wait, G: Gate>(self, rt: &W, station: &Station<'_, R>, gate: &G) {
        let Seat {
            worker,
            mut frame,
            run: _,
        } = self;
        serve(rt, worker, station, &mut frame, gate);
    }

    /// Seats for all workers but the first, or for fewer where there is no memory for a frame. It is refused for want of memory alone.
    pub fn others(alloc: Global, station: &Station<'c, R>) -> Result<Vec<Seat<'c, R>>, AllocError> {
        let workers = station.workers();
        let mut seats = Vec::with_capacity(alloc, workers as usize)?;
        for worker in 1..workers {
            let Ok(seat) = Seat::new(alloc, station, worker) else {
                break;
            };
            seats.push(seat)?;
        }
        Ok(seats)
    }
}
