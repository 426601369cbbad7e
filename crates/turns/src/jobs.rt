// The jobs that wait.

ghost use Rattle.std.specs.Prelude.{◌≡◌, ◌-◌, ◌≤◌, List, map, length, replicate, None, count_by, Option};
ghost use Rattle.turns.specs.Jobs.{background, is_background, job_of, put, shed, waiting};
ghost use Rattle.turns.specs.declared.Job.{Job as Waiting};

use crate::Job;
use std::marker::Model;
use stream::{Class, MOST_STREAMS};

// At most one job of each of 32 streams, seen as the list of their places.
#[derive(Clone, Copy)]
pub struct Jobs {
    places: [Option<Job>; MOST_STREAMS],
}

impl Model for Jobs {
    ghost Value = { List (Option Waiting) };

    ghost view = { λ jobs. jobs.places };

    ghost invariant = { λ jobs. length jobs.places ≡ 32 };

    ghost inverse = { λ places. record { places = places } };
}

// Streams are numbered from 1, and places from 0. No stream has number 0; who asks for it is shown the first place.
fn place_of(stream: u64) -> usize
    ensures { result ≡ stream - 1 }
{
    stream.saturating_sub(1) as usize
}

impl Jobs {
    pub fn none() -> Jobs
        ensures { result ≡ replicate 32 None }
    {
        Jobs {
            places: [None; MOST_STREAMS],
        }
    }

    // A place for each stream, the first stream's first.
    pub fn places(&self) -> &[Option<Job>; MOST_STREAMS]
        ensures all { result.now ≡ self.now }
        ensures room { length self.now ≡ 32 }
    {
        &self.places
    }

    // The job of a stream, if one waits.
    pub fn of(&self, stream: u64) -> Option<Job>
        ensures job { result ≡ job_of self.now stream }
        ensures room { length self.now ≡ 32 }
    {
        *self.places.get(place_of(stream))?
    }

    // Leaves a stream with this job, or with none. No stream after the 32nd has a place.
    pub fn put(&mut self, stream: u64, job: Option<Job>)
        ensures { self.new ≡ put self.old stream job }
    {
        let at = place_of(stream);
        // no `get_mut`, which says nothing of what the other places end as
        if at < self.places.len() {
            self.places[at] = job;
        }
    }

    pub fn waiting(&self) -> u64
        ensures { result ≡ waiting self.now }
    {
        self.places.iter().filter(|place| place.is_some()).count() as u64
    }

    // Drops the background jobs, and tells how many there were.
    pub fn drop_background(&mut self) -> u64
        ensures left { self.new ≡ map shed self.old }
        ensures dropped { result ≡ count_by is_background self.old }
        ensures few { result ≤ 32 }
    {
        let dropped = self
            .places
            .iter()
            .filter(|place| place.is_some_and(|job| job.is_background()))
            .count() as u64;
        // in place, where `map` of an array would copy all places more than once (docs/SPEED.md)
        for place in self.places.iter_mut() {
            *place = place.filter(|job| !job.is_background());
        }
        dropped
    }
}

impl Job {
    fn is_background(&self) -> bool
        ensures { result ≡ background self.now.row.class }
    {
        self.row.class == Class::Background
    }
}
