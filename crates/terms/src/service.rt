// The five Ancillary Services, and a figure for each of them.
ghost use Rattle.std.specs.Prelude.{◌≡◌};
ghost use Rattle.terms.specs.Services.{service_of, letter_of, service_of_letter, always, of, with_service};

use crate::refusal::Refusal;

#[derive(Clone, Copy, PartialEq, Eq, Debug)]
pub enum Service {
    RegUp,
    RegDown,
    Responsive,
    NonSpin,
    Ecrs,
}

// One of T for each service.
#[derive(Clone, Copy, Default)]
pub struct ByService<T> {
    pub up: T,
    pub down: T,
    pub responsive: T,
    pub nonspin: T,
    pub ecrs: T,
}

impl Service {
    // All five in the order of their numbers.
    pub const ALL: [Service; 5] = [
        Service::RegUp,
        Service::RegDown,
        Service::Responsive,
        Service::NonSpin,
        Service::Ecrs,
    ];
}

// The service of a number from 0 to 4.
impl TryFrom<u32> for Service {
    type Error = Refusal;

    ghost try_from_gives = { λ number answer. answer ≡ service_of number };

    fn try_from(number: u32) -> Result<Service, Refusal> {
        match number {
            0 => Ok(Service::RegUp),
            1 => Ok(Service::RegDown),
            2 => Ok(Service::Responsive),
            3 => Ok(Service::NonSpin),
            4 => Ok(Service::Ecrs),
            _ => Err(Refusal::FigureOutOfRange),
        }
    }
}

// The service of the letter that stands for it on a statement.
impl TryFrom<char> for Service {
    type Error = Refusal;

    ghost try_from_gives = { λ letter answer. answer ≡ service_of_letter letter };

    fn try_from(letter: char) -> Result<Service, Refusal> {
        match letter {
            'U' => Ok(Service::RegUp),
            'D' => Ok(Service::RegDown),
            'R' => Ok(Service::Responsive),
            'N' => Ok(Service::NonSpin),
            'E' => Ok(Service::Ecrs),
            _ => Err(Refusal::FigureOutOfRange),
        }
    }
}

// The letter that stands for a service on a statement.
impl From<Service> for char {
    ghost from_gives = { λ service letter. letter ≡ letter_of service };

    fn from(service: Service) -> char {
        match service {
            Service::RegUp => 'U',
            Service::RegDown => 'D',
            Service::Responsive => 'R',
            Service::NonSpin => 'N',
            Service::Ecrs => 'E',
        }
    }
}

impl<T: Copy> ByService<T> {
    // The same for every service.
    pub fn always(value: T) -> ByService<T>
        ensures answer { result ≡ always value }
    {
        ByService {
            up: value,
            down: value,
            responsive: value,
            nonspin: value,
            ecrs: value,
        }
    }

    // What this service has.
    pub fn of(&self, service: Service) -> T
        ensures answer { result ≡ of service self.now }
    {
        match service {
            Service::RegUp => self.up,
            Service::RegDown => self.down,
            Service::Responsive => self.responsive,
            Service::NonSpin => self.nonspin,
            Service::Ecrs => self.ecrs,
        }
    }

    // Gives this service another value; the four others keep theirs.
    pub fn set(&mut self, service: Service, value: T)
        ensures after { self.new ≡ with_service service value self.old }
    {
        match service {
            Service::RegUp => self.up = value,
            Service::RegDown => self.down = value,
            Service::Responsive => self.responsive = value,
            Service::NonSpin => self.nonspin = value,
            Service::Ecrs => self.ecrs = value,
        }
    }
}
