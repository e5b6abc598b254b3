//! Seats in the order of their callers, and the numbers of locks: functions without a body, each for its contract.
ghost use Rattle.turn_lock.specs.Numbers.{NumberTellsLock};
ghost use Rattle.turn_lock.specs.Order.{InOrderFromZero, FromZeroInOrder, PartsFrom, WholeFrom, PlaceFrom, OwnCallersFrom, InOrderAreAll};

/// The seats that a lock begins with are numbered on from caller 0.
pub fn seats_begin_at_zero()
    ensures { InOrderFromZero }
{}

/// Such seats, as many as the lock has, are its seats in order.
pub fn seats_from_zero_are_in_order()
    ensures { FromZeroInOrder }
{}

/// Where seats are numbered on from a caller, so are those of each part of the list.
pub fn parts_are_numbered_on()
    ensures { PartsFrom }
{}

/// And two parts that are numbered on make a whole that is.
pub fn whole_is_numbered_on()
    ensures { WholeFrom }
{}

/// The caller of a seat is the first one's and its place.
pub fn place_tells_caller()
    ensures { PlaceFrom }
{}

/// Two seats of such a list have different callers.
pub fn callers_differ()
    ensures { OwnCallersFrom }
{}

/// The seats in order are all seats of the lock, so that `finish` may be called.
pub fn seats_in_order_are_all()
    ensures { InOrderAreAll }
{}

/// Two locks with one number are one lock.
pub fn number_tells_lock()
    ensures { NumberTellsLock }
{}
