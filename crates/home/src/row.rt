// A row, and what each change does to the one row that it is about.
ghost use Rattle.std.specs.Prelude.{◌≡◌, Ok, Err, if◌then◌else◌, nat_eq};
ghost use Rattle.home.specs.declared.fault.Refusal.TheVariants.{Held, NotYours};
ghost use Rattle.home.specs.Meaning.{checked_place, fault_at, place_of};
ghost use Rattle.home.specs.Opening.{bad_row, row_flaw};
ghost use Rattle.home.specs.Rows.{amended, answer_of, free_row, hold_row, lease_of, put_row, renew_row, result_of, row_after};

use crate::fault::{Fault, Layer, Refusal};

// A value with its lease, the timestamps from wts (when it was written) to rts (the last at which it is
// known to stand), and the place that holds the row to write it, or 0. All are plain numbers side by side, as they lie
// in the caller's table.
#[derive(Clone, Copy, PartialEq, Eq, Debug)]
pub struct Row<V> {
    pub value: V,
    pub wts: u64,
    pub rts: u64,
    pub holder: u32,
}

// The timestamps of a row.
#[derive(Clone, Copy, PartialEq, Eq, Debug)]
pub struct Lease {
    pub wts: u64,
    pub rts: u64,
}

// Why something is refused, with the detail that the fault will have; place, key and layer come with the call.
#[derive(Clone, Copy, PartialEq, Eq, Debug)]
pub struct Cause {
    pub refusal: Refusal,
    pub detail: u64,
}

// What is bad of a row that a home cannot be made of; the number is the fault's detail.
#[derive(Clone, Copy, PartialEq, Eq, Debug)]
pub enum Flaw {
    // Not wts ≤ rts ≤ the last timestamp.
    Lease = 1,
    // A holder past 64.
    Holder = 2,
    // A word that is no value of the kind.
    Word = 3,
}

impl Flaw {
    // The fault of an opening that finds this flaw first, at this key.
    pub fn at(self, key: u32) -> Fault
        ensures { result ≡ bad_row key self }
    {
        Cause {
            refusal: Refusal::BadRow,
            detail: self as u64,
        }
        .at(0, key)
    }
}

// The four calls of a home that can alter a row, as values: laws speak of any change, and none looks into a closure.
#[derive(Clone, Copy, PartialEq, Eq, Debug)]
pub enum Change<V> {
    // The place wants to write the row.
    Hold { place: u32 },
    // The version `wts` shall stand until `t`; where its lease falls short, it ends at `wish`.
    Renew { wts: u64, t: u64, wish: u64 },
    // The place that holds the row writes the value at `t`.
    Put { place: u32, value: V, t: u64 },
    // The place that holds the row lets it go unwritten.
    Free { place: u32 },
}

impl<V: Copy> Change<V> {
    // The place that makes the change; for a renewal, which needs none, the 0 of its faults.
    pub fn place(&self) -> u32
        ensures { result ≡ place_of self.now }
    {
        match *self {
            Change::Renew { .. } => 0,
            Change::Hold { place } | Change::Put { place, .. } | Change::Free { place } => place,
        }
    }

    // Refuses 4 where the change needs a place and names none from 1 to 64.
    pub fn check_place(&self) -> Result<(), Cause>
        ensures { result ≡ checked_place self.now }
    {
        match *self {
            Change::Renew { .. } => Ok(()),
            Change::Hold { place } | Change::Put { place, .. } | Change::Free { place } =>
                match place {
                    1..=64 => Ok(()),
                    _ => Err(Cause::plain(Refusal::NoPlace)),
                },
        }
    }
}

impl Cause {
    // A cause with nothing to add: by a name, and no `From`, since that is what it says.
    pub fn plain(refusal: Refusal) -> Cause
        ensures { result ≡ record { refusal = refusal; detail = 0 } }
    {
        Cause { refusal, detail: 0 }
    }

    // The fault of the home's call, or of its opening, that was given this place and key.
    pub fn at(self, place: u32, key: u32) -> Fault
        ensures { result ≡ fault_at place key self }
    {
        Fault {
            refusal: self.refusal,
            layer: Layer::Home,
            place,
            key,
            detail: self.detail,
        }
    }
}

impl<V: Copy> Row<V> {
    // The row's timestamps.
    pub fn lease(&self) -> Lease
        ensures { result ≡ lease_of self.now }
    {
        Lease {
            wts: self.wts,
            rts: self.rts,
        }
    }

    // What is bad of the row in a home with this last timestamp, the lease before the holder.
    pub fn flaw(&self, last: u64) -> Option<Flaw>
        ensures { result ≡ row_flaw last self.now }
    {
        if self.wts > self.rts || self.rts > last {
            Some(Flaw::Lease)
        } else if self.holder > 64 {
            Some(Flaw::Holder)
        } else {
            None
        }
    }

    // Makes the change, by its fields, and answers the lease that then stands. A refusal leaves the row as it was.
    pub fn amend(&mut self, change: Change<V>, last: u64) -> Result<Lease, Cause>
        ensures answer { result ≡ answer_of (amended last change self.old) }
        ensures row { self.new ≡ row_after self.old (amended last change self.old) }
    {
        match change {
            Change::Hold { place } => self.hold(place, last)?,
            Change::Renew { wts, t, wish } => self.renew(wts, t, wish, last)?,
            Change::Put { place, value, t } => self.put(place, value, t, last)?,
            Change::Free { place } => self.free(place)?,
        }
        Ok(self.lease())
    }

    fn hold(&mut self, place: u32, last: u64) -> Result<(), Cause>
        ensures answer { result ≡ result_of (hold_row last place self.old) }
        ensures row { self.new ≡ row_after self.old (hold_row last place self.old) }
    {
        self.check_free()?;
        if self.rts == last {
            return Err(Cause::plain(Refusal::TimeSpent));
        }
        self.holder = place;
        Ok(())
    }

    fn renew(&mut self, wts: u64, t: u64, wish: u64, last: u64) -> Result<(), Cause>
        ensures answer { result ≡ result_of (renew_row last wts t wish self.old) }
        ensures row { self.new ≡ row_after self.old (renew_row last wts t wish self.old) }
    {
        if wish < t || wish > last {
            return Err(Cause::plain(Refusal::TimeSpent));
        }
        if self.wts != wts {
            return Err(Cause {
                refusal: Refusal::MovedOn,
                detail: self.wts,
            });
        }
        self.check_free()?;
        if t > self.rts {
            self.rts = wish;
        }
        Ok(())
    }

    fn put(&mut self, place: u32, value: V, t: u64, last: u64) -> Result<(), Cause>
        ensures answer { result ≡ result_of (put_row last place value t self.old) }
        ensures row { self.new ≡ row_after self.old (put_row last place value t self.old) }
    {
        self.check_holder(place)?;
        if t > last {
            return Err(Cause::plain(Refusal::TimeSpent));
        }
        if t <= self.rts {
            return Err(Cause::plain(Refusal::TooEarly));
        }
        *self = Row {
            value,
            wts: t,
            rts: t,
            holder: 0,
        };
        Ok(())
    }

    fn free(&mut self, place: u32) -> Result<(), Cause>
        ensures answer { result ≡ result_of (free_row place self.old) }
        ensures row { self.new ≡ row_after self.old (free_row place self.old) }
    {
        self.check_holder(place)?;
        self.holder = 0;
        Ok(())
    }

    // Refuses 2 where somebody holds the row.
    fn check_free(&self) -> Result<(), Cause>
        ensures { result ≡ (if nat_eq self.now.holder 0 then Ok tt else Err (record { refusal = Held; detail = self.now.holder })) }
    {
        match self.holder {
            0 => Ok(()),
            holder => Err(Cause {
                refusal: Refusal::Held,
                detail: u64::from(holder),
            }),
        }
    }

    // Refuses 6 where the place is not the holder.
    fn check_holder(&self, place: u32) -> Result<(), Cause>
        ensures { result ≡ (if nat_eq self.now.holder place then Ok tt else Err (record { refusal = NotYours; detail = 0 })) }
    {
        if self.holder == place {
            Ok(())
        } else {
            Err(Cause::plain(Refusal::NotYours))
        }
    }
}
