//! The MCUs of an image, in rows and in restart intervals.

ghost use Rattle.std.specs.Prelude.{◌≡◌, ◌+◌, ◌<◌, ◌≤◌};
ghost use Rattle.jr_base.specs.declared.limits.TheConstants.{MAX_MCUS, MAX_MCUS_ACROSS};
ghost use Rattle.jr_head.specs.Geometry.{mcus_across, mcus_down, mcus_of};
ghost use Rattle.jr_head.specs.Intervals.{first_mcu_of, interval_number, intervals_of, mcus_in, within_interval};

use crate::head::Head;

impl Head {
    /// Returns the number of MCUs, of 8 Hmax columns each, that cover the image's width (T.81, A.2.4).
    pub fn mcus_across(&self) -> u32
        ensures value { result ≡ mcus_across self.now }
        ensures some { 0 < result }
        ensures few { result ≤ MAX_MCUS_ACROSS }
    {
        self.width().div_ceil(8 * self.horizontal_max())
    }

    /// Returns the number of rows of MCUs, of 8 Vmax lines each, that cover the image's height (T.81, A.2.4).
    pub fn mcus_down(&self) -> u32
        ensures value { result ≡ mcus_down self.now }
        ensures some { 0 < result }
        ensures few { result ≤ MAX_MCUS_ACROSS }
    {
        self.height().div_ceil(8 * self.vertical_max())
    }

    /// Returns the number of MCUs, of 8 Hmax by 8 Vmax pixels, that cover the image (T.81, A.2.4).
    pub fn mcus(&self) -> u32
        ensures value { result ≡ mcus_of self.now }
        ensures some { 0 < result }
        ensures few { result ≤ MAX_MCUS }
    {
        self.mcus_across() * self.mcus_down()
    }

    /// Returns the number of restart intervals of the scan (T.81, E.1.4): one if there are no restart markers.
    pub fn intervals(&self) -> u32
        ensures value { result ≡ intervals_of self.now }
        ensures some { 0 < result }
    {
        let restart = u32::from(self.restart());
        if restart == 0 {
            return 1;
        }
        self.mcus().div_ceil(restart)
    }

    /// Returns the number in the scan of an interval's first MCU.
    pub fn first_mcu(&self, interval: u32) -> u32
        requires { interval < intervals_of self.now }
        ensures value { result ≡ first_mcu_of self.now interval }
        ensures inside { result < mcus_of self.now }
    {
        // By its contract an image has few enough MCUs that their numbers fit.
        let _all = self.mcus();
        interval * u32::from(self.restart())
    }

    /// Returns the number of MCUs of an interval: the last one may have fewer than the others.
    pub fn mcus_in(&self, interval: u32) -> u32
        requires { interval < intervals_of self.now }
        ensures value { result ≡ mcus_in self.now interval }
        ensures some { 0 < result }
        ensures inside { first_mcu_of self.now interval + result ≤ mcus_of self.now }
    {
        let restart = u32::from(self.restart());
        if restart == 0 {
            return self.mcus();
        }
        restart.min(self.mcus() - self.first_mcu(interval))
    }

    /// Returns the interval that holds an MCU, and the MCU's number in it.
    pub fn interval_with(&self, mcu: u32) -> (u32, u32)
        ensures interval { result.0 ≡ interval_number self.now mcu }
        ensures within { result.1 ≡ within_interval self.now mcu }
        ensures few { result.1 ≤ mcu }
    {
        match u32::from(self.restart()) {
            0 => (0, mcu),
            restart => (mcu / restart, mcu % restart),
        }
    }
}
